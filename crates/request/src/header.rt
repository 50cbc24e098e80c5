// The header nest of a request: refusals 10 to 12 in it, 14, or 8 in a dump, and 15.
ghost use Rattle.std.specs.Prelude.{◌≡◌, ◌||◌};
ghost use Rattle.request.specs.Header.{flags_judged, parts_of, dump_parts_of, header_of};

use crate::parts::{HeaderParts, header_parts};
use crate::policies::header_policy;
use netlink::walk::{Slot, Stop, slot_number, walk};
use netlink_attributes::{payload, place};
use refusal::{Refusal, of_fault};

// The flags 1 (compact) and 2 (omit reply) together.
const KNOWN_FLAGS: u32 = 3;

// The parts of a header, and its flags as a number, 0 where the attribute is absent.
#[derive(Clone, Copy)]
pub struct Header {
    pub parts: HeaderParts,
    pub flags: u32,
}

// Whether a port is given, by index or by name.
pub fn gives_port(parts: HeaderParts) -> bool
    ensures { result ≡ (parts.index.present || parts.name.present) }
{
    if parts.index.present {
        return true;
    }
    parts.name.present
}

// Judges the flags.
pub fn judge_flags(message: &[u8], parts: HeaderParts) -> Result<Header, Refusal>
    ensures { result ≡ flags_judged message.now parts }
{
    let slot = parts.flags;
    let flags = slot_number(message, slot);
    if KNOWN_FLAGS < flags {
        return Err(Refusal::HeaderFlag(place(slot.start)));
    }
    Ok(Header { parts, flags })
}

// Judges the parts of the header nest of a dump: it names no port.
fn judge_dump_parts(message: &[u8], parts: HeaderParts) -> Result<Header, Refusal>
    ensures { result ≡ dump_parts_of message.now parts }
{
    if gives_port(parts) {
        return Err(Refusal::Dump);
    }
    judge_flags(message, parts)
}

// Judges the parts of the header nest at a place.
fn judge_header_parts(message: &[u8], nest: usize, parts: HeaderParts) -> Result<Header, Refusal>
    ensures { result ≡ parts_of message.now nest parts }
{
    if !gives_port(parts) {
        return Err(Refusal::NoPort(nest));
    }
    judge_flags(message, parts)
}

// Walks the header nest whole, in the message cut at the nest's end, then judges its parts.
pub fn read_header(message: &[u8], header: Slot, dump: bool) -> Result<Header, Refusal>
    ensures { result ≡ header_of message.now header dump }
{
    let start = header.start;
    let end = header.end;
    let walked = walk(header_policy(), payload(message, 0, end), start);
    let stop = walked.stop;
    if let Stop::At { fault, at } = stop {
        return Err(of_fault(fault, at));
    }
    let slots = walked.slots;
    if dump {
        return judge_dump_parts(message, header_parts(slots));
    }
    judge_header_parts(message, place(start), header_parts(slots))
}
