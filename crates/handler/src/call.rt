// One call: the message at a position of a datagram, answered.
ghost use Rattle.std.specs.Prelude.{◌≡◌, ◌≤◌, length};
ghost use Rattle.response.specs.Answer.{Performs};
ghost use Rattle.response.specs.declared.Kind.TheVariants.{Refused};
ghost use Rattle.boxes.specs.Box.{box_of, state_of};
ghost use Rattle.execute.specs.Fit.{Fit};
ghost use Rattle.handler.specs.Call.{message_outcome, position_outcome, outcome};

use admission::{Admission, admit};
use boxes::Call;
use boxes::rule::box_right;
use execute::{Request, execute};
use netlink_attributes::payload;
use netlink_headers::headers::MessageHeader;
use netlink_headers::messages::{MessageRead, read_message};
use refusal::Refusal;
use response::{Answer, Kind, refuse};
use roll::Roll;
use roll::table::{PORTS, read_ports};
use strset::answer_strset;

// The least page and the longest datagram.
pub const PAGE: usize = 32768;

pub const DATAGRAM: usize = 32768;

// An answer that writes nothing.
fn no_bytes(kind: Kind, next: usize) -> Answer
    ensures { result ≡ record { kind = kind; next = next; place = 0; written = 0 } }
{
    Answer {
        kind,
        next,
        place: 0,
        written: 0,
    }
}

// Refusals 1 to 4: nothing is written, and the position is given back.
pub fn refuse_in_place(why: Refusal, position: usize) -> Answer
    ensures { result ≡ record { kind = Refused why; next = position; place = 0; written = 0 } }
{
    no_bytes(Kind::Refused(why), position)
}

// Answers the message m, whose header is h: skipped, refused by 5 to 9, its name lists told, or executed.
fn answer_message<'a>(
    page: &mut [u8],
    settings: &mut [u32],
    roll: &Roll,
    debug: &'a [u8],
    flags: &'a [u8],
    m: &[u8],
    h: MessageHeader,
    next: usize,
    call: Call,
) -> Answer
    requires in_bounds { (32768 ≤ length page.old) × (16 ≤ length m.now) }
    requires fit { Fit (box_of roll.now debug.now flags.now) (state_of settings.old) }
    ensures { Performs (message_outcome (box_of roll.now debug.now flags.now) (state_of settings.old) call m.now h next) page.old page.new (state_of settings.new) result }
{
    match admit(m, h, call.family, call.admin == 1) {
        Err(why) => refuse(page, m, why, next),
        Ok(Admission::Skipped) => no_bytes(Kind::Skipped, next),
        Ok(Admission::Strset) => answer_strset(page, roll, debug, flags, m, h, next),
        Ok(Admission::Admitted(command)) => {
            let request = Request {
                header: h,
                position: call.position,
                next,
                place: call.place,
                command,
            };
            execute(page, settings, roll, debug, flags, m, request)
        }
    }
}

// Answers the message at a position: the end, a message that is not whole (3 and 4), or one that is answered.
fn answer_at<'a>(
    call: Call,
    roll: &Roll,
    debug: &'a [u8],
    flags: &'a [u8],
    settings: &mut [u32],
    datagram: &[u8],
    page: &mut [u8],
) -> Answer
    requires in_bounds { 32768 ≤ length page.old }
    requires fit { Fit (box_of roll.now debug.now flags.now) (state_of settings.old) }
    ensures { Performs (position_outcome (box_of roll.now debug.now flags.now) (state_of settings.old) call datagram.now) page.old page.new (state_of settings.new) result }
{
    let position = call.position;
    match read_message(datagram, position) {
        MessageRead::Outside => {
            return refuse_in_place(Refusal::Datagram, position);
        }
        MessageRead::AtEnd => {
            return no_bytes(Kind::End, position);
        }
        MessageRead::Cut => {
            return refuse_in_place(Refusal::Datagram, position);
        }
        MessageRead::Misstated => {
            return refuse_in_place(Refusal::Length, position);
        }
        MessageRead::Message {
            header: h,
            end,
            next,
        } => {
            let m = payload(datagram, position, end);
            return answer_message(page, settings, roll, debug, flags, m, h, next, call);
        }
    }
}

// Takes one message from a datagram, answers it, and keeps the settings. Every input has an answer: nothing is asked of the caller.
pub fn handle<'a>(
    call: Call,
    roll: &[u8],
    debug: &'a [u8],
    flags: &'a [u8],
    settings: &mut [u32],
    datagram: &[u8],
    page: &mut [u8],
) -> Answer
    ensures { Performs (outcome (box_of roll.now debug.now flags.now) (state_of settings.old) call datagram.now (length page.old)) page.old page.new (state_of settings.new) result }
{
    let mut table = [0u64; PORTS];
    let n = read_ports(roll, &mut table);
    let ports = &table[..n];
    if !box_right(call, roll, ports, debug, flags, settings) {
        return refuse_in_place(Refusal::Box, call.position);
    }
    if page.len() < PAGE {
        return refuse_in_place(Refusal::Page, call.position);
    }
    if DATAGRAM < datagram.len() {
        return refuse_in_place(Refusal::Datagram, call.position);
    }
    let roll = Roll::new(roll, ports);
    answer_at(call, &roll, debug, flags, settings, datagram, page)
}
