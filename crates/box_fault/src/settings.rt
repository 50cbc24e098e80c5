// Where settings break their rule.
ghost use Rattle.std.specs.Prelude.{◌≡◌, ◌*◌, ◌≤◌, length};
ghost use Rattle.layout.specs.AtMost.{AtMost};
ghost use Rattle.layout.specs.Layout.{widths_of, total_words as words_of};
ghost use Rattle.box_fault.specs.Longest.{right_up_to};
ghost use Rattle.box_fault.specs.Settings.{right_length, right_with_zeros, settings_fault};

use crate::{Fault, Part};
use boxes::settings_right;
use layout::{Sizes, total_words, widths};
use word_bytes::read_words;

// The most words that settings can have: 64 ports, two sets of 512 bits each.
const WORDS: usize = 2048;

// How many words settings must have.
fn words_of(ports: usize, sizes: Sizes) -> usize
    requires { (ports ≤ 64) × AtMost 512 sizes }
    ensures { (result ≡ words_of ports (widths_of sizes)) × (result ≤ 2048) }
{
    total_words(ports, widths(sizes))
}

// How many words are right with zeros behind them. Word after word is cleared, from the end, until they are.
fn right_words(words: &mut [u32], ports: usize, sizes: Sizes) -> usize
    requires ports_bound { (ports ≤ 64) × AtMost 512 sizes }
    requires words_len { length words.old ≡ words_of ports (widths_of sizes) }
    ensures { (result ≡ right_up_to (right_with_zeros ports sizes) words.old) × (result ≤ length words.old) }
{
    let mut n = words.len();
    while 0 < n {
        if settings_right(words, ports, sizes) {
            return n;
        }
        n -= 1;
        words[n] = 0;
    }
    0
}

// The fault of settings of the right length, with room for their words.
fn words_fault(settings: &[u8], words: &mut [u32], ports: usize, sizes: Sizes) -> Option<Fault>
    requires ports_bound { (ports ≤ 64) × AtMost 512 sizes }
    requires settings_len { (length settings.now ≡ right_length ports sizes) × (length words.old ≡ words_of ports (widths_of sizes)) }
    ensures { result ≡ settings_fault settings.now ports sizes }
{
    read_words(settings, words);
    if settings_right(words, ports, sizes) {
        return None;
    }
    let offset = right_words(words, ports, sizes) * 4;
    Some(Fault {
        part: Part::Settings,
        offset,
    })
}

// The fault of settings, none where they keep their rule.
pub fn settings_fault(settings: &[u8], ports: usize, sizes: Sizes) -> Option<Fault>
    requires { (ports ≤ 64) × AtMost 512 sizes }
    ensures { result ≡ settings_fault settings.now ports sizes }
{
    let n = words_of(ports, sizes);
    let right = n * 4;
    if settings.len() < right {
        return Some(Fault {
            part: Part::Settings,
            offset: settings.len(),
        });
    }
    if right < settings.len() {
        return Some(Fault {
            part: Part::Settings,
            offset: right,
        });
    }
    let mut room = [0u32; WORDS];
    let words = &mut room[..n];
    words_fault(settings, words, ports, sizes)
}
