// The answers that write a reply: a GET's, and those of a dump.
ghost use Rattle.std.specs.Prelude.{◌≡◌, ◌≤◌, ◌<◌, length};
ghost use Rattle.page.specs.Page.{Wrote};
ghost use Rattle.roll.specs.Record.{port_count};
ghost use Rattle.boxes.specs.Box.{box_of, state_of, set_of};
ghost use Rattle.response.specs.Answer.{Responds, response_of};
ghost use Rattle.response.specs.declared.Kind.TheVariants.{Done};
ghost use Rattle.execute.specs.Execute.{port_reply, get_bytes, port_response, dump_response};
ghost use Rattle.execute.specs.Fit.{Fit};

use crate::Request;
use boxes::lists::sizes;
use boxes::settings::set_at;
use layout::{Set, names_of, size_of, widths};
use netlink_dump::{MULTI, put_done};
use reply::message::{heading_of, put_reply};
use request::target::Target;
use response::{Answer, Kind, put_ack_if_asked};
use roll::Roll;

// The message flags of a reply that is no part of a dump.
const NO_FLAGS: u16 = 0;

// The words of a set of the port at a position.
fn stored_words<'s>(
    settings: &'s [u32],
    roll: &Roll,
    debug: &[u8],
    flags: &[u8],
    position: usize,
    set: Set,
) -> &'s [u32]
    requires position_bound { position < port_count roll.now }
    requires fit { Fit (box_of roll.now debug.now flags.now) (state_of settings.now) }
    ensures { result.now ≡ set_of (box_of roll.now debug.now flags.now) (state_of settings.now) position set }
{
    let width = widths(sizes(debug, flags));
    set_at(settings, roll.count(), width, position, set)
}

// The reply to a request about a port, with message flags.
fn put_port_reply<'a>(
    page: &mut [u8],
    settings: &[u32],
    roll: &Roll,
    debug: &'a [u8],
    flags: &'a [u8],
    request: Request,
    message_flags: u16,
    target: Target,
) -> usize
    requires in_bounds { (32768 ≤ length page.old) × (target.position < port_count roll.now) }
    requires fit { Fit (box_of roll.now debug.now flags.now) (state_of settings.now) }
    ensures wrote { Wrote (port_reply (box_of roll.now debug.now flags.now) (state_of settings.now) request message_flags target) page.old page.new result }
    ensures upper_bound { result ≤ 26700 }
{
    let h = request.header;
    let command = request.command;
    let set = command.set;
    let heading = heading_of(h, message_flags, command.reply);
    let position = target.position;
    let index = roll.index_of(position);
    let name = roll.name_of(position);
    let words = stored_words(settings, roll, debug, flags, position, set);
    let n = size_of(sizes(debug, flags), set);
    let names = names_of(set, debug, flags);
    put_reply(
        page,
        heading,
        index,
        name,
        target.flags % 2 == 1,
        names,
        words,
        n,
    )
}

// A done GET: the reply, then the ACK if asked.
pub fn get<'a>(
    page: &mut [u8],
    settings: &[u32],
    roll: &Roll,
    debug: &'a [u8],
    flags: &'a [u8],
    m: &[u8],
    request: Request,
    target: Target,
) -> Answer
    requires in_bounds { (32768 ≤ length page.old) × (16 ≤ length m.now) × (target.position < port_count roll.now) }
    requires fit { Fit (box_of roll.now debug.now flags.now) (state_of settings.now) }
    ensures { Responds (response_of Done request.next (get_bytes (box_of roll.now debug.now flags.now) (state_of settings.now) m.now request target)) page.old page.new result }
{
    let h = request.header;
    let reply = put_port_reply(
        page, settings, roll, debug, flags, request, NO_FLAGS, target,
    );
    let ack = put_ack_if_asked(&mut page[reply..], m, h);
    let written = reply + ack;
    Answer {
        kind: Kind::Done,
        next: request.next,
        place: 0,
        written,
    }
}

// A dump at the place of a port: the reply about it. The same message is answered again, at the next place.
fn dump_port<'a>(
    page: &mut [u8],
    settings: &[u32],
    roll: &Roll,
    debug: &'a [u8],
    flags: &'a [u8],
    request: Request,
    asked: u32,
) -> Answer
    requires in_bounds { (32768 ≤ length page.old) × (request.place < port_count roll.now) }
    requires fit { Fit (box_of roll.now debug.now flags.now) (state_of settings.now) }
    ensures { Responds (port_response (box_of roll.now debug.now flags.now) (state_of settings.now) request asked) page.old page.new result }
{
    let target = Target {
        position: request.place,
        flags: asked,
    };
    let written = put_port_reply(page, settings, roll, debug, flags, request, MULTI, target);
    Answer {
        kind: Kind::Done,
        next: request.position,
        place: request.place + 1,
        written,
    }
}

// A dump at its place: the reply about the port there, or past the last port DONE.
pub fn dump<'a>(
    page: &mut [u8],
    settings: &[u32],
    roll: &Roll,
    debug: &'a [u8],
    flags: &'a [u8],
    request: Request,
    asked: u32,
) -> Answer
    requires in_bounds { 32768 ≤ length page.old }
    requires fit { Fit (box_of roll.now debug.now flags.now) (state_of settings.now) }
    ensures { Responds (dump_response (box_of roll.now debug.now flags.now) (state_of settings.now) request asked) page.old page.new result }
{
    if request.place < roll.count() {
        return dump_port(page, settings, roll, debug, flags, request, asked);
    }
    let h = request.header;
    let written = put_done(page, h);
    Answer {
        kind: Kind::Done,
        next: request.next,
        place: 0,
        written,
    }
}
