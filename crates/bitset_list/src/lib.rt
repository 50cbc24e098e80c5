// A bit list: BITS, and in it any number of BITs.
#![tactic(auto)]

ghost use Rattle.std.specs.Prelude.{◌≡◌, ◌-◌, length, ltb};
ghost use Rattle.netlink_attributes.specs.Attributes.{attributes};
ghost use Rattle.bitset_form.specs.Form.{judged_as};
ghost use Rattle.bitset_list.specs.BitList.{bits_reading, list_reading};
ghost use Rattle.bitset_list.specs.Judged.{list_judged};
ghost use Rattle.entries.specs.Entry.{count};
ghost use Rattle.name_index.specs.NamesIn.{names_in};

use bitset_bit::judge_bit;
use bitset_form::parts::BitsetParts;
use bitset_form::policies::bits_policy;
use bitset_form::{Form, list_bit, under_nomask};
use name_index::NameIndex;
use netlink::walk::{Stop, walk};
use netlink_attributes::{AttributeRead, payload, read_attribute};
use refusal::{Refusal, of_fault};

// Judges each BIT in turn, and lists its bit. No setting moves before all are judged.
#[tactic(auto, using(crate::proofs::Laws::bits_laws))]
fn judge_bits(s: &[u8], names: &NameIndex, from: usize) -> Result<Form, Refusal>
    ensures { result ≡ list_judged (bits_reading s.now (names_in names.now) (attributes s.now from)) }
{
    let mut mask = [0u32; 16];
    let mut value = [0u32; 16];
    let mut at = from;
    while let AttributeRead::Attribute(x) = read_attribute(s, at) {
        let bit = judge_bit(payload(s, 0, x.end), names, x.start)?;
        list_bit(&mut mask, &mut value, bit.number, bit.on);
        at = x.next;
    }
    Ok(Form { mask, value })
}

// Judges each BIT in turn, where tables lead to the names.
fn judge_many(s: &[u8], names: &[u8], from: usize) -> Result<Form, Refusal>
    ensures { result ≡ list_judged (bits_reading s.now names.now (attributes s.now from)) }
{
    let mut head = [0u16; 8192];
    let mut links = [0u16; 512];
    let indexed = name_index::index(names, &mut head, &mut links);
    let names_in = NameIndex::with_tables(names, indexed, &head, &links);
    judge_bits(s, &names_in, from)
}

// Judges each BIT in turn, where there are few: tables would cost more than they spare.
fn judge_few(s: &[u8], names: &[u8], from: usize) -> Result<Form, Refusal>
    ensures { result ≡ list_judged (bits_reading s.now names.now (attributes s.now from)) }
{
    judge_bits(s, &NameIndex::bare(names), from)
}

// So many bytes of BITs, from where on tables are made (docs/PERFORMANCE.md, "The search for a name").
const MANY: usize = 320;

fn is_short(s: &[u8], from: usize) -> bool
    ensures { result ≡ ltb (length s.now - from) 320 }
{
    s.len().saturating_sub(from) < MANY
}

// Judges each BIT in turn, with or without tables.
fn judge_each(s: &[u8], names: &[u8], from: usize) -> Result<Form, Refusal>
    ensures { result ≡ list_judged (bits_reading s.now names.now (attributes s.now from)) }
{
    if is_short(s, from) {
        return judge_few(s, names, from);
    }
    judge_many(s, names, from)
}

// BITS is walked whole before the first BIT is opened.
pub fn judge_list(s: &[u8], names: &[u8], parts: BitsetParts) -> Result<Form, Refusal>
    ensures { result ≡ judged_as (count names.now) (list_reading s.now names.now parts) }
{
    let bits = parts.bits;
    let contents = payload(s, 0, bits.end);
    let walked = walk(bits_policy(), contents, bits.start);
    let stop = walked.stop;
    if let Stop::At { fault, at } = stop {
        return Err(of_fault(fault, at));
    }
    let judged = judge_each(contents, names, bits.start);
    let nomask = parts.nomask;
    if nomask.present {
        return under_nomask(judged, names::count(names));
    }
    judged
}
