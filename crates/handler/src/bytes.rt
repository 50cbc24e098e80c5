// The handler over settings as bytes.
ghost use Rattle.std.specs.Prelude.{◌≡◌, ◌/◌, ◌%◌, ◌≤◌, length};
ghost use Rattle.boxes.specs.Box.{box_of};
ghost use Rattle.response.specs.Answer.{Performs};
ghost use Rattle.handler.specs.Bytes.{stored_of, are_words, bytes_outcome, words_outcome};

use crate::call::{handle, refuse_in_place};
use boxes::Call;
use refusal::Refusal;
use response::Answer;

// The most bytes that settings can have: 64 ports, two sets of 512 bits each.
pub const SETTINGS: usize = 8192;

// So few words, and so many, get room of their own size: to clear room for all that a box can have would cost as much as a small call.
const FEW: usize = 64;

const SOME: usize = 512;

// The handler over settings as bytes, with room for their words.
fn handle_in<'a>(
    call: Call,
    roll: &[u8],
    debug: &'a [u8],
    flags: &'a [u8],
    settings: &mut [u8],
    words: &mut [u32],
    datagram: &[u8],
    page: &mut [u8],
) -> Answer
    requires { (length settings.old % 4 ≡ 0) × (length words.old ≡ length settings.old / 4) }
    ensures { Performs (words_outcome (box_of roll.now debug.now flags.now) (stored_of settings.old) call datagram.now (length page.old)) page.old page.new (stored_of settings.new) result }
{
    word_bytes::read_words(settings, words);
    let answer = handle(call, roll, debug, flags, words, datagram, page);
    word_bytes::write_words(words, settings);
    answer
}

// The handler over settings of at most 512 words.
fn handle_some<'a>(
    call: Call,
    roll: &[u8],
    debug: &'a [u8],
    flags: &'a [u8],
    settings: &mut [u8],
    datagram: &[u8],
    page: &mut [u8],
) -> Answer
    requires { (length settings.old % 4 ≡ 0) × (length settings.old / 4 ≤ 512) }
    ensures { Performs (words_outcome (box_of roll.now debug.now flags.now) (stored_of settings.old) call datagram.now (length page.old)) page.old page.new (stored_of settings.new) result }
{
    let n = settings.len() / 4;
    if n <= FEW {
        let mut few = [0u32; FEW];
        let words = &mut few[..n];
        return handle_in(call, roll, debug, flags, settings, words, datagram, page);
    }
    let mut some = [0u32; SOME];
    let words = &mut some[..n];
    handle_in(call, roll, debug, flags, settings, words, datagram, page)
}

// Whether settings are whole words, and no more than any box has.
fn are_words(settings: &[u8]) -> bool
    ensures { result ≡ are_words settings.now }
{
    if settings.len() % 4 != 0 {
        return false;
    }
    settings.len() <= SETTINGS
}

// Takes one message from a datagram, answers it, and keeps the settings, which are the little-endian bytes of their words. Settings that are
// no whole words, or more than any box has, break the box.
pub fn handle_bytes<'a>(
    call: Call,
    roll: &[u8],
    debug: &'a [u8],
    flags: &'a [u8],
    settings: &mut [u8],
    datagram: &[u8],
    page: &mut [u8],
) -> Answer
    ensures { Performs (bytes_outcome (box_of roll.now debug.now flags.now) (stored_of settings.old) call datagram.now (length page.old)) page.old page.new (stored_of settings.new) result }
{
    if !are_words(settings) {
        return refuse_in_place(Refusal::Box, call.position);
    }
    let n = settings.len() / 4;
    if n <= SOME {
        return handle_some(call, roll, debug, flags, settings, datagram, page);
    }
    let mut all = [0u32; 2048];
    let words = &mut all[..n];
    handle_in(call, roll, debug, flags, settings, words, datagram, page)
}
