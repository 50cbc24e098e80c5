// The normaliser: a bitset's contents to the bytes of its normal form.
#![tactic(auto)]

ghost use Rattle.std.specs.Prelude.{◌≡◌, ◌≤◌, length};
ghost use Rattle.entries.specs.Entry.{count};
ghost use Rattle.bitset.specs.Judge.{bitset_reading};
ghost use Rattle.normal.specs.Normal.{reading_answer, reading_result, normal_result, normalised, Normalised};

use bitset::judge::judge_bitset;
use bitset_write::form::put_form;
use refusal::Refusal;

pub const PAGE: usize = 144;

pub const CONTENTS: usize = 32768;

// Judges the contents, and writes the normal form of a bitset that is accepted: so many bytes.
fn put_normal(contents: &[u8], names: &[u8], page: &mut [u8]) -> Result<usize, Refusal>
    requires { (count names.now ≤ 512) × (144 ≤ length page.old) }
    ensures normalised { Normalised (reading_answer (bitset_reading contents.now 0 names.now) (count names.now)) page.old page.new result }
    ensures value { result ≡ reading_result (bitset_reading contents.now 0 names.now) (count names.now) }
{
    let form = judge_bitset(contents, 0, names)?;
    let mask = form.mask;
    let value = form.value;
    let written = put_form(page, names::count(names), mask, value);
    Ok(written)
}

// Normalises the contents of a bitset for the set that a list names: so many bytes are written, none where it is refused. Bytes of the page
// past the form stay.
#[tactic(auto, using(crate::proofs::Laws::normal_laws))]
pub fn normalise(contents: &[u8], names: &[u8], page: &mut [u8]) -> Result<usize, Refusal>
    ensures normalised { Normalised (normalised contents.now names.now (length page.old)) page.old page.new result }
    ensures value { result ≡ normal_result contents.now names.now (length page.old) }
{
    if !names::names_right(names) {
        return Err(Refusal::Box);
    }
    if page.len() < PAGE {
        return Err(Refusal::Page);
    }
    if CONTENTS < contents.len() {
        return Err(Refusal::Datagram);
    }
    put_normal(contents, names, page)
}
