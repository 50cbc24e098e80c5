// The port that a header names: refusals 16 and 17.
ghost use Rattle.std.specs.Prelude.{◌≡◌, length, ◌<◌};
ghost use Rattle.roll.specs.Record.{port_count};
ghost use Rattle.request.specs.Port.{other_name, port_by_index, port_by_name, port_of};

use crate::parts::HeaderParts;
use netlink::walk::{Slot, slot_number};
use netlink_attributes::{payload, place};
use refusal::Refusal;
use roll::{Roll, holds_name};

// Whether a name is given, and is not that of the port at a position.
fn other_name(message: &[u8], name: Slot, roll: &Roll, position: usize) -> bool
    requires { position < port_count roll.now }
    ensures { result ≡ other_name message.now name roll.now position }
{
    if !name.present {
        return false;
    }
    let start = name.start;
    let end = name.end;
    !holds_name(roll.name_of(position), payload(message, start, end))
}

// The port of the index, counted from 0; a name beside it must be the port's.
fn port_by_index(
    message: &[u8],
    header: Slot,
    parts: HeaderParts,
    roll: &Roll,
) -> Result<usize, Refusal>
    ensures { result ≡ port_by_index message.now header parts roll.now }
{
    let index = parts.index;
    let name = parts.name;
    let unknown = Refusal::UnknownPort(place(index.start));
    let position = roll
        .port_of_index(slot_number(message, index))
        .ok_or(unknown)?;
    if other_name(message, name, roll, position) {
        return Err(Refusal::OtherName(place(header.start)));
    }
    Ok(position)
}

// The port of the name.
fn port_by_name(message: &[u8], name: Slot, roll: &Roll) -> Result<usize, Refusal>
    ensures { result ≡ port_by_name message.now name roll.now }
{
    let start = name.start;
    let end = name.end;
    roll.port_of_name(payload(message, start, end))
        .ok_or(Refusal::UnknownPort(place(start)))
}

// The port of a header nest's index if given, else of its name.
pub fn find_port(
    message: &[u8],
    header: Slot,
    parts: HeaderParts,
    roll: &Roll,
) -> Result<usize, Refusal>
    ensures { result ≡ port_of message.now header parts roll.now }
{
    if parts.index.present {
        return port_by_index(message, header, parts, roll);
    }
    let name = parts.name;
    port_by_name(message, name, roll)
}
