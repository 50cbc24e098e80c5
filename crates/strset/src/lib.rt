// A STRSET_GET that is admitted: judged by value, then its reply is written.
#![tactic(auto)]

ghost use Rattle.std.specs.Prelude.{◌≡◌, ◌≤◌, ◌<◌, length};
ghost use Rattle.entries.specs.Entry.{count as count_of};
ghost use Rattle.layout.specs.Layout.{names_of};
ghost use Rattle.page.specs.Page.{Wrote};
ghost use Rattle.boxes.specs.Box.{box_of};
ghost use Rattle.response.specs.Answer.{Responds, ack_bytes};
ghost use Rattle.strset_reply.specs.Message.{strset_content_of};
ghost use Rattle.strset.specs.Strset.{index_in, name_in, strset_content_in, strset_bytes, content_response, strset_response};
ghost use Rattle.strset.specs.PortNamed.{PortNamed};

use netlink_headers::headers::MessageHeader;
use refusal::Refusal;
use reply::message::heading_of;
use response::{Answer, Kind, ack_length, put_ack_if_asked, refuse};
use roll::Roll;
use strset_reply::length::reply_length;
use strset_reply::message::put_strset_reply;
use strset_request::asked::{Asked, read_asked};
use strset_request::list::Sets;

// The command of the reply, and its message flags.
const STRSET_GET_REPLY: u8 = 1;

const NO_FLAGS: u16 = 0;

// The most that a reply and its ACK may take.
const LONGEST: usize = 32768;

// The reply, then the ACK if asked, where both have room.
fn put_strset<'a>(
    page: &mut [u8],
    m: &[u8],
    h: MessageHeader,
    named: bool,
    index: u32,
    name: &[u8],
    counts: bool,
    debug: &'a [u8],
    flags: &'a [u8],
    sets: Sets,
) -> usize
    requires in_bounds { (16 ≤ length m.now) × (length name.now ≤ 16) × (count_of debug.now ≤ 512) × (count_of flags.now ≤ 512) × (56 ≤ length page.old) }
    requires counts_in_bounds { length (strset_bytes m.now h (strset_content_of named index name.now (names_of debug.now flags.now) sets counts)) ≤ length page.old }
    ensures { Wrote (strset_bytes m.now h (strset_content_of named index name.now (names_of debug.now flags.now) sets counts)) page.old page.new result }
{
    let heading = heading_of(h, NO_FLAGS, STRSET_GET_REPLY);
    let reply = put_strset_reply(
        page, heading, named, index, name, counts, debug, flags, sets,
    );
    // Without an ACK the reply may fill the page.
    if ack_length(h) == 0 {
        return reply;
    }
    let ack = put_ack_if_asked(&mut page[reply..], m, h);
    reply + ack
}

// The answer about a port or about none: 25 before anything is written.
fn answer_content<'a>(
    page: &mut [u8],
    m: &[u8],
    h: MessageHeader,
    next: usize,
    named: bool,
    index: u32,
    name: &[u8],
    counts: bool,
    debug: &'a [u8],
    flags: &'a [u8],
    sets: Sets,
) -> Answer
    requires { (32768 ≤ length page.old) × (16 ≤ length m.now) × (length name.now ≤ 16) × (count_of debug.now ≤ 512) × (count_of flags.now ≤ 512) }
    ensures { Responds (content_response m.now h next (strset_content_of named index name.now (names_of debug.now flags.now) sets counts)) page.old page.new result }
{
    let long = reply_length(named, index, name, counts, debug, flags, sets);
    if LONGEST < long + ack_length(h) {
        return refuse(page, m, Refusal::LongReply, next);
    }
    let written = put_strset(page, m, h, named, index, name, counts, debug, flags, sets);
    Answer {
        kind: Kind::Done,
        next,
        place: 0,
        written,
    }
}

// The index of the port that is named, 0 where none is.
fn index_in(roll: &Roll, port: Option<usize>) -> u32
    requires { PortNamed roll.now port }
    ensures { result ≡ index_in roll.now port }
{
    match port {
        None => 0,
        Some(position) => roll.index_of(position),
    }
}

// Its name, no bytes where none is.
fn name_in<'r>(roll: &Roll<'r, '_>, port: Option<usize>) -> &'r [u8]
    requires { PortNamed roll.now port }
    ensures { result.now ≡ name_in roll.now port }
{
    match port {
        None => &roll.bytes()[..0],
        Some(position) => roll.name_of(position),
    }
}

// The answer to what is asked for.
fn answer_asked<'a>(
    page: &mut [u8],
    roll: &Roll,
    debug: &'a [u8],
    flags: &'a [u8],
    m: &[u8],
    h: MessageHeader,
    next: usize,
    asked: Asked,
) -> Answer
    requires in_bounds { (32768 ≤ length page.old) × (16 ≤ length m.now) × (count_of debug.now ≤ 512) × (count_of flags.now ≤ 512) }
    requires port_named { PortNamed roll.now asked.port }
    ensures { Responds (content_response m.now h next (strset_content_in (box_of roll.now debug.now flags.now) asked)) page.old page.new result }
{
    let port = asked.port;
    let sets = asked.sets;
    let named = port.is_some();
    let index = index_in(roll, port);
    let name = name_in(roll, port);
    let counts = asked.counts;
    answer_content(
        page, m, h, next, named, index, name, counts, debug, flags, sets,
    )
}

// Judges a STRSET_GET by value, then answers it.
pub fn answer_strset<'a>(
    page: &mut [u8],
    roll: &Roll,
    debug: &'a [u8],
    flags: &'a [u8],
    m: &[u8],
    h: MessageHeader,
    next: usize,
) -> Answer
    requires { (32768 ≤ length page.old) × (16 ≤ length m.now) × (count_of debug.now ≤ 512) × (count_of flags.now ≤ 512) }
    ensures { Responds (strset_response (box_of roll.now debug.now flags.now) m.now h next) page.old page.new result }
{
    match read_asked(m, roll) {
        Err(why) => refuse(page, m, why, next),
        Ok(asked) => answer_asked(page, roll, debug, flags, m, h, next, asked),
    }
}
