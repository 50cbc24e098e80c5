// A set in a slice of words.
ghost use Rattle.std.specs.Prelude.{◌≡◌, ◌+◌, ◌≤◌, length, take, drop};
ghost use Rattle.basics.specs.Put.{splice};
ghost use Rattle.bits.specs.Set.{has, words_of, words_for, put_bit, none_from};
ghost use Rattle.bits.specs.Change.{merge};

use crate::word::{cut_word, merge_word};

// The words of a set of n bits: n / 32 rounded up.
pub fn words_for(n: usize) -> usize
    ensures { result ≡ words_for n }
{
    n.div_ceil(32)
}

// Whether bit i is in the set; a bit past the words is not.
pub fn test_bit(words: &[u32], i: usize) -> bool
    ensures { result ≡ has words.now i }
{
    let j = i / 32;
    if words.len() <= j {
        return false;
    }
    let k = (i % 32) as u32;
    (words[j] >> k) % 2 == 1
}

// Bit i in the set or not, the others as they were; a bit past the words changes nothing.
pub fn put_bit(words: &mut [u32], i: usize, v: bool)
    ensures { words.new ≡ words_of (length words.old) (put_bit i v (has words.old)) }
{
    let j = i / 32;
    if words.len() <= j {
        return;
    }
    let k = (i % 32) as u32;
    let m = 1u32 << k;
    if v {
        words[j] = merge_word(m, m, words[j]);
    } else {
        words[j] = merge_word(m, 0, words[j]);
    }
}

// Whether the words have no bit at or past n.
pub fn none_from(words: &[u32], n: usize) -> bool
    ensures { result ≡ none_from words.now n }
{
    for j in n / 32..words.len() {
        if words[j] != cut_word(words[j], n, j) {
            return false;
        }
    }
    true
}

// A masked change, word by word: the bits in `mask` take `value`'s bits.
pub fn merge_words(words: &mut [u32], mask: &[u32], value: &[u32])
    requires { (length mask.now ≡ length words.old) × (length value.now ≡ length words.old) }
    ensures { words.new ≡ words_of (length words.old) (merge (has mask.now) (has value.now) (has words.old)) }
{
    for (j, word) in words.iter_mut().enumerate() {
        *word = merge_word(mask[j], value[j], *word);
    }
}

// A masked change of the words from `at` on, as many as `mask` has; the others stay.
pub fn merge_at(words: &mut [u32], at: usize, mask: &[u32], value: &[u32])
    requires { (at + length mask.now ≤ length words.old) × (length value.now ≡ length mask.now) }
    ensures { words.new ≡ splice at words.old (words_of (length mask.now) (merge (has mask.now) (has value.now) (has (take (length mask.now) (drop at words.old))))) }
{
    let end = at + mask.len();
    merge_words(&mut words[at..end], mask, value);
}
