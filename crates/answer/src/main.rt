// The program of document 01: standard input is one datagram, the answers go to standard output.
#![tactic(auto)]

ghost use Rattle.std.specs.Prelude.{◌≡◌, length, take, replicate};
ghost use Rattle.io.specs.Counts.{IsPrefixLen};
ghost use Rattle.response.specs.Answer.{Performs};
ghost use Rattle.boxes.specs.Box.{box_of, state_of};
ghost use Rattle.answer.specs.Box.{program_box, first_state};
ghost use Rattle.answer.specs.Run.{call, goes_on, answers};

mod input;
mod output;

use crate::input::Input;
use crate::output::Written;
use boxes::Call;
use handler::call::handle;
use response::{Answer, Kind};

const PAGE: usize = 32768;

// Whether the program goes on after an answer of this kind.
fn goes_on(kind: Kind) -> bool
    ensures { result ≡ goes_on kind }
{
    match kind {
        Kind::End => false,
        Kind::Skipped => true,
        Kind::Done => true,
        Kind::Refused(why) => 4 < why.number(),
    }
}

// Answers the message at a position, at a place of a dump, for the program's box.
fn answer_one<'a>(
    roll: &[u8],
    debug: &'a [u8],
    flags: &'a [u8],
    settings: &mut [u32],
    datagram: &[u8],
    at: usize,
    place: usize,
    page: &mut [u8],
) -> Answer
    requires { (box_of roll.now debug.now flags.now ≡ program_box) × (length page.old ≡ 32768) }
    ensures { Performs (call datagram.now (state_of settings.old) at place) page.old page.new (state_of settings.new) result }
{
    let call = Call {
        family: 25,
        admin: 1,
        position: at,
        place,
    };
    handle(call, roll, debug, flags, settings, datagram, page)
}

// Writes the answers to a datagram in order; a dump is gone through place by place.
fn answer_all<'a>(
    roll: &[u8],
    debug: &'a [u8],
    flags: &'a [u8],
    settings: &mut [u32],
    datagram: &[u8],
    page: &mut [u8],
) -> Written
    requires { (box_of roll.now debug.now flags.now ≡ program_box) × (state_of settings.old ≡ first_state) × (length page.old ≡ 32768) }
    ensures { result.count ≡ length (answers datagram.now) }
{
    let mut at: usize = 0;
    let mut place: usize = 0;
    let mut written = Written::nothing();
    loop {
        let a = answer_one(roll, debug, flags, settings, datagram, at, place, page);
        let kind = a.kind;
        if !goes_on(kind) {
            return written;
        }
        let n = a.written;
        written = written.send(datagram, &page[..n]);
        at = a.next;
        place = a.place;
    }
}

// The same for the box of document 01's whole reply: port 3 "sw0", 40 bits in each set, bit 3 of the flags named "lldp", flags 0 and 33 set.
fn answer_datagram(datagram: &[u8], page: &mut [u8; 32768]) -> Written
    ensures { result.count ≡ length (answers datagram.now) }
{
    let roll = b"\x01\x03\0\0\0sw0\0\0\0\0\0\0\0\0\0\0\0\0\0";
    let debug = [0u8; 1280];
    let mut flags = [0u8; 1280];
    flags[96] = b'l';
    flags[97] = b'l';
    flags[98] = b'd';
    flags[99] = b'p';
    let mut settings = [0u32, 0, 1, 2];
    answer_all(roll, &debug, &flags, &mut settings, datagram, page)
}

// The same for the bytes of the input that were read. Where they fill the array, the datagram may be cut: nothing is written.
fn answer_input(input: Input, page: &mut [u8; 32768]) -> Written
    requires { (length input.bytes ≡ 32769) × IsPrefixLen input.count input.bytes × (page.old ≡ replicate 32768 0) }
    ensures count_value { result.count ≡ length (answers (take input.count input.bytes)) }
    ensures count_value_2 { input.count ≡ length input.bytes → result.count ≡ 0 }
{
    let bytes = input.bytes();
    let n = input.count();
    answer_datagram(&bytes[..n], page)
}

fn main() {
    let mut page = [0u8; PAGE];
    let input = Input::read();
    answer_input(input, &mut page);
}
