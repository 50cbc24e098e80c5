// The parts of a bitset and of a BIT by their names: the last attribute of each type, from the slots of a walk.
ghost use Rattle.std.specs.Prelude.{◌≡◌};
ghost use Rattle.bitset_form.specs.Parts.{bitset_parts};

use crate::policies::{BITS, MASK, NOMASK, SIZE, VALUE};
use netlink::walk::Slot;

#[derive(Clone, Copy)]
pub struct BitsetParts {
    pub nomask: Slot,
    pub size: Slot,
    pub bits: Slot,
    pub value: Slot,
    pub mask: Slot,
}

// The last is the BIT's VALUE flag.
#[derive(Clone, Copy)]
pub struct BitParts {
    pub index: Slot,
    pub name: Slot,
    pub on: Slot,
}

pub fn bitset_parts(slots: [Slot; 8]) -> BitsetParts
    ensures { result ≡ bitset_parts slots }
{
    let nomask = slots[NOMASK];
    let size = slots[SIZE];
    let bits = slots[BITS];
    let value = slots[VALUE];
    let mask = slots[MASK];
    BitsetParts {
        nomask,
        size,
        bits,
        value,
        mask,
    }
}
