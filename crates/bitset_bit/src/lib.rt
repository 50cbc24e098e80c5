// One BIT of a bit list: walked whole, then judged.
#![tactic(auto)]

ghost use Rattle.std.specs.Prelude.{◌≡◌, Ok};
ghost use Rattle.bitset_bit.specs.Bit.{bit_by_index, bit_by_name, combined, identified, bit_parts_reading, bit_walked, bit_reading};
ghost use Rattle.netlink.specs.Policy.{rule_of, judged};
ghost use Rattle.bitset_form.specs.Policies.{bit_policy};
ghost use Rattle.name_index.specs.NamesIn.{names_in};

use bitset_form::parts::BitParts;
use name_index::NameIndex;
use netlink::policy::{Fault, Rule, Verdict, judge_by_rule};
use netlink::walk::{Slot, absent_slot, found, slot_number};
use netlink_attributes::{AttributeRead, payload, place, read_attribute};
use refusal::{Refusal, of_fault};

// A BIT judged: its number, and whether its VALUE flag stands.
#[derive(Clone, Copy)]
pub struct Bit {
    pub number: usize,
    pub on: bool,
}

// The bit that INDEX means, where it stands.
#[tactic(auto, unfolding(crate::specs::Bit::bit_by_index))]
fn bit_by_index(s: &[u8], n: usize, index: Slot) -> Result<Option<usize>, Refusal>
    ensures { result ≡ bit_by_index s.now n index }
{
    if !index.present {
        return Ok(None);
    }
    let number = slot_number(s, index) as usize;
    if n <= number {
        return Err(Refusal::PastLength(place(index.start)));
    }
    Ok(Some(number))
}

// The bit that NAME means, where it stands.
#[tactic(auto, unfolding(crate::specs::Bit::bit_by_name))]
fn bit_by_name(s: &[u8], names: &NameIndex, name: Slot) -> Result<Option<usize>, Refusal>
    ensures { result ≡ bit_by_name s.now (names_in names.now) name }
{
    if !name.present {
        return Ok(None);
    }
    let lookup = names.look_up(payload(s, name.start, name.end));
    if lookup.bit.is_none() {
        return Err(Refusal::UnknownBit(place(name.start)));
    }
    Ok(lookup.bit)
}

// Where the BIT at `at` carries INDEX and NAME, both must mean the same bit.
fn combine(at: usize, index: Option<usize>, name: Option<usize>) -> Result<Option<usize>, Refusal>
    ensures { result ≡ combined at (Ok index) (Ok name) }
{
    let Some(by_index) = index else {
        return Ok(name);
    };
    let Some(by_name) = name else {
        return Ok(index);
    };
    if by_index == by_name {
        return Ok(index);
    }
    Err(Refusal::TwoBits(at))
}

// INDEX is judged first, then NAME is looked up.
#[tactic(auto, unfolding(crate::specs::Bit::identified))]
fn identify(
    s: &[u8],
    names: &NameIndex,
    at: usize,
    parts: BitParts,
) -> Result<Option<usize>, Refusal>
    ensures { result ≡ identified s.now (names_in names.now) at parts }
{
    let index = bit_by_index(s, names::count(names.list()), parts.index)?;
    let name = bit_by_name(s, names, parts.name)?;
    combine(at, index, name)
}

// Judges the parts of the BIT that stands at `at`.
#[tactic(auto, unfolding(crate::specs::Bit::bit_parts_reading))]
fn judge_bit_parts(s: &[u8], names: &NameIndex, at: usize, parts: BitParts) -> Result<Bit, Refusal>
    ensures { result ≡ bit_parts_reading s.now (names_in names.now) at parts }
{
    let Some(number) = identify(s, names, at, parts)? else {
        return Err(Refusal::NoBit(at));
    };
    let on = parts.on;
    Ok(Bit {
        number,
        on: on.present,
    })
}

// Judges one attribute of a BIT. The rule is written out for each type, so that each is judged by short code of its own.
#[tactic(auto, unfolding(netlink::specs::Policy::rule_of))]
fn judge_attribute(kind: u16, bits: u16, payload: &[u8]) -> Verdict
    ensures { result ≡ judged (rule_of bit_policy kind) bits payload.now }
{
    match kind {
        1 => judge_by_rule(Rule::Number, bits, payload),
        2 => judge_by_rule(Rule::Name(32), bits, payload),
        3 => judge_by_rule(Rule::Flag, bits, payload),
        _ => judge_by_rule(Rule::Unlisted, bits, payload),
    }
}

// Walks the BIT whose contents are the bytes of s from `from` on, keeping only the slots of its three types.
#[tactic(auto, using(crate::proofs::Laws::bit_laws))]
fn walk_bit(s: &[u8], from: usize) -> Result<BitParts, Refusal>
    ensures { result ≡ bit_walked s.now from }
{
    let mut index = absent_slot();
    let mut name = absent_slot();
    let mut on = absent_slot();
    let mut at = from;
    loop {
        match read_attribute(s, at) {
            AttributeRead::End => {
                return Ok(BitParts { index, name, on });
            }
            AttributeRead::Broken => {
                return Err(of_fault(Fault::Length, at));
            }
            AttributeRead::Attribute(x) => {
                let kind = x.kind;
                match judge_attribute(kind, x.bits, payload(s, x.start, x.end)) {
                    Verdict::Wrong(fault) => {
                        return Err(of_fault(fault, at));
                    }
                    Verdict::Right => {
                        at = x.next;
                        match kind {
                            1 => index = found(x.start, x.end),
                            2 => name = found(x.start, x.end),
                            _ => on = found(x.start, x.end),
                        }
                    }
                }
            }
        }
    }
}

// Judges that BIT.
#[tactic(auto, unfolding(crate::specs::Bit::bit_reading))]
pub fn judge_bit(s: &[u8], names: &NameIndex, from: usize) -> Result<Bit, Refusal>
    ensures { result ≡ bit_reading s.now (names_in names.now) from }
{
    let parts = walk_bit(s, from)?;
    judge_bit_parts(s, names, place(from), parts)
}
