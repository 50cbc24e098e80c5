// The parts of the top level of a request and of its header, by name: made once from the slots of a walk.
ghost use Rattle.std.specs.Prelude.{◌≡◌};
ghost use Rattle.request.specs.Parts.{top_parts, header_parts};

use crate::policies::{BITSET, FLAGS, HEADER, INDEX, NAME};
use netlink::walk::Slot;

// The bitset is absent in a GET.
#[derive(Clone, Copy)]
pub struct TopParts {
    pub header: Slot,
    pub bitset: Slot,
}

#[derive(Clone, Copy)]
pub struct HeaderParts {
    pub index: Slot,
    pub name: Slot,
    pub flags: Slot,
}

pub fn top_parts(slots: [Slot; 8]) -> TopParts
    ensures { result ≡ top_parts slots }
{
    let header = slots[HEADER];
    let bitset = slots[BITSET];
    TopParts { header, bitset }
}

pub fn header_parts(slots: [Slot; 8]) -> HeaderParts
    ensures { result ≡ header_parts slots }
{
    let index = slots[INDEX];
    let name = slots[NAME];
    let flags = slots[FLAGS];
    HeaderParts { index, name, flags }
}
