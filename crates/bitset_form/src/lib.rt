// The one form of every change: a mask and the values of its bits.
#![tactic(auto)]

ghost use Rattle.std.specs.Prelude.{◌≡◌};
ghost use Rattle.bits.specs.Set.{has, words_of, all_below};
ghost use Rattle.word_bytes.specs.Bytes.{words_in};
ghost use Rattle.bitset_form.specs.Form.{listed_in, under_nomask, cut_at, both};

use refusal::Refusal;

pub mod parts;
pub mod policies;

// Sixteen words each, lowest first: a set has at most 512 bits.
#[derive(Clone, Copy)]
pub struct Form {
    pub mask: [u32; 16],
    pub value: [u32; 16],
}

// The set of all bits below n.
#[tactic(auto, using(crate::proofs::Laws::fill_laws))]
pub fn all_below(n: usize) -> [u32; 16]
    ensures { result ≡ words_of 16 (all_below n) }
{
    let mut words = [0u32; 16];
    for (j, word) in words.iter_mut().enumerate() {
        *word = bits::below(n, j);
    }
    words
}

// The bits of a bitmap below a size.
#[tactic(auto, using(crate::proofs::Laws::fill_laws))]
pub fn cut_at(bitmap: &[u8], size: usize) -> [u32; 16]
    ensures { result ≡ words_of 16 (cut_at size (has (words_in bitmap.now))) }
{
    let mut words = [0u32; 16];
    for (j, word) in words.iter_mut().enumerate() {
        *word = bits::cut_word(word_bytes::word_in(bitmap, j), size, j);
    }
    words
}

// The bits of a bitmap that are in a mask, too.
#[tactic(auto, using(crate::proofs::Laws::fill_laws))]
pub fn within(bitmap: &[u8], mask: [u32; 16]) -> [u32; 16]
    ensures { result ≡ words_of 16 (both (has mask) (has (words_in bitmap.now))) }
{
    let mut words = [0u32; 16];
    for (j, word) in words.iter_mut().enumerate() {
        *word = bits::merge_word(mask[j], word_bytes::word_in(bitmap, j), 0);
    }
    words
}

// One more listed bit, set or cleared, in the mask and value of a form. They are lent, so that a long list copies no form for each bit.
#[tactic(auto, using(crate::proofs::Laws::list_bit_is))]
pub fn list_bit(mask: &mut [u32; 16], value: &mut [u32; 16], number: usize, on: bool)
    ensures { record { mask = mask.exit.now; value = value.new } ≡ listed_in (record { mask = mask.entry.now; value = value.old }) number on }
{
    bits::put_bit(mask, number, true);
    bits::put_bit(value, number, on);
}

// A bit list under NOMASK: the listed bits are 1, all others 0.
#[tactic(auto, unfolding(crate::specs::Form::under_nomask))]
pub fn under_nomask(judged: Result<Form, Refusal>, n: usize) -> Result<Form, Refusal>
    ensures { result ≡ under_nomask n judged }
{
    let form = judged?;
    let listed = form.mask;
    Ok(Form {
        mask: all_below(n),
        value: listed,
    })
}
