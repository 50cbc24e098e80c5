// One STRINGSET: its id, and the set that it asks for. Refusals 10 to 13 and 24.
ghost use Rattle.std.specs.Prelude.{◌≡◌};
ghost use Rattle.strset_request.specs.Set.{id_of, set_of_id, id_judged, set_reading};

use crate::policies::{ID, string_set_policy};
use layout::Set;
use netlink::walk::{Slot, Stop, slot_number, walk};
use netlink_attributes::place;
use refusal::{Refusal, of_fault};

// The id of a set's names: message classes are the debug names. `Set` and u32 are both declared elsewhere, so no `From` stands here.
pub fn id_of(set: Set) -> u32
    ensures { result ≡ id_of set }
{
    match set {
        Set::Debug => 10,
        Set::Flags => 2,
    }
}

// The set of the id at a place; that of the flags is offered where a port is named.
fn set_of_id(id: u32, named: bool, at: usize) -> Result<Set, Refusal>
    ensures { result ≡ set_of_id id named at }
{
    if id == id_of(Set::Debug) {
        return Ok(Set::Debug);
    }
    if id == id_of(Set::Flags) {
        if named {
            return Ok(Set::Flags);
        }
    }
    Err(Refusal::NotOffered(at))
}

// Judges the id of the STRINGSET at a place.
fn judge_id(s: &[u8], nest: usize, named: bool, id: Slot) -> Result<Set, Refusal>
    ensures { result ≡ id_judged s.now nest named id }
{
    if !id.present {
        return Err(Refusal::MissingIn(ID, nest));
    }
    set_of_id(slot_number(s, id), named, place(id.start))
}

// Walks the STRINGSET whose contents are the bytes of s from `from` on whole, then judges its id.
pub fn judge_set(s: &[u8], from: usize, named: bool) -> Result<Set, Refusal>
    ensures { result ≡ set_reading s.now from named }
{
    let walked = walk(string_set_policy(), s, from);
    let stop = walked.stop;
    if let Stop::At { fault, at } = stop {
        return Err(of_fault(fault, at));
    }
    let slots = walked.slots;
    let id = slots[ID];
    judge_id(s, place(from), named, id)
}
