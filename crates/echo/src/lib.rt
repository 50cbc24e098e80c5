// A made-up family over netlink alone: its one command takes a header nest with a number, and is answered with that number.
#![tactic(auto)]

ghost use Rattle.std.specs.Prelude.{◌≡◌, ◌≤◌, ◌<◌, length};
ghost use Rattle.basics.specs.Numbers.{le32};
ghost use Rattle.page.specs.Page.{Wrote};
ghost use Rattle.netlink_write.specs.Attributes.{attr, nest};
ghost use Rattle.echo.specs.Echo.{header_type, number_type, policy, nest_reading, request_reading, number_reply, answer_written};

use netlink::policy::Rule;
use netlink::walk::{Slot, Stop, slot_number, walk};
use netlink_attributes::{payload, place};
use netlink_error::{Detail, put_error};
use netlink_headers::headers::{
    AttributeHeader, GenericHeader, GenericHeaderRead, MessageHeader, MessageHeaderRead,
};
use netlink_write::attributes::{close_nest, put_number};
use netlink_write::headers::{put_generic_header, put_message_header};

// The family's one command.
pub const COMMAND: u8 = 1;

// The attribute at the top level: the header nest.
pub const HEADER: u16 = 1;

// The attribute in the header nest: the number.
pub const NUMBER: u16 = 1;

// The errnos that it tells: EINVAL, EOPNOTSUPP.
const INVALID: u32 = 22;

const NOT_SUPPORTED: u32 = 95;

// Their slots.
const HEADER_SLOT: usize = HEADER as usize;

const NUMBER_SLOT: usize = NUMBER as usize;

// What a request asks: the number, or why it is refused.
#[derive(Clone, Copy)]
pub enum RequestRead {
    Number(u32),
    Refused(u32, Detail),
}

// One type alone, by its rule.
fn policy(kind: usize, rule: Rule) -> [Rule; 8]
    requires { kind < 8 }
    ensures { result ≡ policy kind rule }
{
    let mut rules = [Rule::Unlisted; 8];
    rules[kind] = rule;
    rules
}

// Reads the header nest. A place in it counts from the request's start, since the nest is walked in the request cut at its end.
fn read_nest(request: &[u8], nest: Slot) -> RequestRead
    ensures { result ≡ nest_reading request.now nest }
{
    let contents = payload(request, 0, nest.end);
    let walked = walk(policy(NUMBER_SLOT, Rule::Number), contents, nest.start);
    let stop = walked.stop;
    if let Stop::At { fault: _, at } = stop {
        return RequestRead::Refused(INVALID, Detail::Offset(at));
    }
    let number = walked.slots[NUMBER_SLOT];
    if !number.present {
        return RequestRead::Refused(INVALID, Detail::MissIn(NUMBER_SLOT, place(nest.start)));
    }
    RequestRead::Number(slot_number(contents, number))
}

fn read_request(request: &[u8]) -> RequestRead
    ensures { result ≡ request_reading request.now }
{
    let GenericHeaderRead::Header(generic) = GenericHeader::read(request, 16) else {
        return RequestRead::Refused(INVALID, Detail::Nothing);
    };
    if generic.command != COMMAND {
        return RequestRead::Refused(NOT_SUPPORTED, Detail::Nothing);
    }
    let walked = walk(policy(HEADER_SLOT, Rule::Nest), request, 20);
    let stop = walked.stop;
    if let Stop::At { fault: _, at } = stop {
        return RequestRead::Refused(INVALID, Detail::Offset(at));
    }
    let nest = walked.slots[HEADER_SLOT];
    if !nest.present {
        return RequestRead::Refused(INVALID, Detail::MissTop(HEADER_SLOT));
    }
    read_nest(request, nest)
}

// The reply: 32 bytes.
fn put_number_reply(page: &mut [u8], h: MessageHeader, number: u32) -> usize
    requires { 52 ≤ length page.old }
    ensures { Wrote (number_reply h number) page.old page.new result }
{
    put_message_header(
        page,
        MessageHeader {
            length: 32,
            kind: h.kind,
            flags: 0,
            sequence: h.sequence,
            port: h.port,
        },
    );
    put_generic_header(
        &mut page[16..],
        GenericHeader {
            command: COMMAND,
            version: 1,
            reserved: 0,
        },
    );
    put_number_nest(&mut page[20..], number) + 20
}

// The header nest with the number in it: 12 bytes.
fn put_number_nest(page: &mut [u8], number: u32) -> usize
    requires { 12 ≤ length page.old }
    ensures wrote { Wrote (nest header_type (attr number_type (le32 number))) page.old page.new result }
    ensures value { result ≡ 12 }
{
    let contents = put_number(&mut page[AttributeHeader::SIZE..], NUMBER, number);
    close_nest(page, HEADER, contents).bytes()
}

// Answers a request, one message of a datagram. With fewer than 16 bytes of it, or a page below 52, nothing is written.
pub fn answer(request: &[u8], page: &mut [u8]) -> usize
    ensures { Wrote (answer_written request.now (length page.old)) page.old page.new result }
{
    if page.len() < 52 {
        return 0;
    }
    let MessageHeaderRead::Header(header) = MessageHeader::read(request, 0) else {
        return 0;
    };
    match read_request(request) {
        RequestRead::Number(number) => put_number_reply(page, header, number),
        RequestRead::Refused(errno, detail) => put_error(page, request, errno, detail),
    }
}
