// Words as their little-endian bytes.
#![tactic(auto)]

ghost use Rattle.std.specs.Prelude.{◌≡◌, ◌+◌, ◌*◌, ◌/◌, ◌≤◌, ◌<◌, length, get_or};
ghost use Rattle.basics.specs.Put.{put};
ghost use Rattle.bits.specs.Set.{has, some_past};
ghost use Rattle.word_bytes.specs.Bytes.{words_in, bytes_of};

use bits::bit_between;
use numbers::four;
use page::put_u32;

// Word j of the bytes, 0 past the last whole one.
pub fn word_in(bytes: &[u8], j: usize) -> u32
    ensures { result ≡ get_or (words_in bytes.now) j 0 }
{
    if j < bytes.len() / 4 {
        four(bytes, j * 4)
    } else {
        0
    }
}

// Whether a bit i with n <= i < size is in the set whose words' bytes these are.
pub fn some_past(bytes: &[u8], n: usize, size: usize) -> bool
    ensures { result ≡ some_past (has (words_in bytes.now)) n size }
{
    for j in n / 32..bytes.len() / 4 {
        if bit_between(word_in(bytes, j), j, n, size) {
            return true;
        }
    }
    false
}

// The words of the bytes, at the front of `words`.
pub fn read_words(bytes: &[u8], words: &mut [u32])
    requires { length bytes.now / 4 ≤ length words.old }
    ensures { words.new ≡ put words.old (words_in bytes.now) }
{
    for (j, word) in words[..bytes.len() / 4].iter_mut().enumerate() {
        *word = word_in(bytes, j);
    }
}

// The bytes of the words, at the front of `bytes`.
pub fn write_words(words: &[u32], bytes: &mut [u8])
    requires { length words.now * 4 ≤ length bytes.old }
    ensures { bytes.new ≡ put bytes.old (bytes_of words.now) }
{
    for (j, word) in words.iter().enumerate() {
        let at = j * 4;
        put_u32(&mut bytes[at..], *word);
    }
}
