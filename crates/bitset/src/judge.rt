// A bitset's contents judged: a refusal with its place, or the form of its change.
ghost use Rattle.std.specs.Prelude.{◌≡◌};
ghost use Rattle.entries.specs.Entry.{count};
ghost use Rattle.bitset_form.specs.Form.{judged_as};
ghost use Rattle.bitset.specs.Judge.{mixed_at, bitset_parts_reading, bitset_reading};

use bitset_compact::judge_compact;
use bitset_form::Form;
use bitset_form::parts::{BitsetParts, bitset_parts};
use bitset_form::policies::bitset_policy;
use bitset_list::judge_list;
use netlink::walk::{Stop, walk};
use netlink_attributes::place;
use refusal::{Refusal, of_fault};

// Where the forms of a bitset are mixed, if they are.
#[tactic(auto, unfolding(crate::specs::Judge::mixed_at))]
fn mixed_at(parts: BitsetParts) -> Option<usize>
    ensures { result ≡ mixed_at parts }
{
    let nomask = parts.nomask;
    let bits = parts.bits;
    let value = parts.value;
    let mask = parts.mask;
    if bits.present {
        if value.present {
            return Some(place(value.start));
        }
        if mask.present {
            return Some(place(mask.start));
        }
        return None;
    }
    if nomask.present {
        if mask.present {
            return Some(place(mask.start));
        }
    }
    None
}

// Judges the parts of a bitset that stands at `nest`.
#[tactic(auto, unfolding(crate::specs::Judge::bitset_parts_reading, bitset_form::specs::Form::judged_as))]
fn judge_bitset_parts(
    s: &[u8],
    nest: usize,
    names: &[u8],
    parts: BitsetParts,
) -> Result<Form, Refusal>
    ensures { result ≡ judged_as (count names.now) (bitset_parts_reading s.now nest names.now parts) }
{
    if let Some(at) = mixed_at(parts) {
        return Err(Refusal::Mixed(at));
    }
    let bits = parts.bits;
    if bits.present {
        return judge_list(s, names, parts);
    }
    judge_compact(s, nest, names::count(names), parts)
}

// Judges the bitset whose contents are the bytes of s from `from` on. Places count from the start of s.
#[tactic(auto, unfolding(crate::specs::Judge::bitset_reading, bitset_form::specs::Form::judged_as))]
pub fn judge_bitset(s: &[u8], from: usize, names: &[u8]) -> Result<Form, Refusal>
    ensures { result ≡ judged_as (count names.now) (bitset_reading s.now from names.now) }
{
    let walked = walk(bitset_policy(), s, from);
    let stop = walked.stop;
    if let Stop::At { fault, at } = stop {
        return Err(of_fault(fault, at));
    }
    let slots = walked.slots;
    judge_bitset_parts(s, place(from), names, bitset_parts(slots))
}
