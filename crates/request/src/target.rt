// The port that a request names, and the flags of its header, from its header nest: refusals 10 to 12 in it, and 14 to 17; in a dump, which names none, 8 and 15.
ghost use Rattle.std.specs.Prelude.{◌≡◌};
ghost use Rattle.request.specs.Target.{target_of};

use crate::header::{Header, read_header};
use crate::port::find_port;
use netlink::walk::Slot;
use refusal::Refusal;
use roll::Roll;

// The port that a request names: its position in the roll, and the flags of the request's header.
#[derive(Clone, Copy)]
pub struct Target {
    pub position: usize,
    pub flags: u32,
}

// Whom a request is addressed to.
#[derive(Clone, Copy)]
pub enum Addressee {
    Port(Target),
    // No port is named: the flags of the header.
    Unnamed(u32),
}

// Reads the header nest of a message and, but for a dump, finds its port in the roll.
pub fn read_target(
    message: &[u8],
    header: Slot,
    dump: bool,
    roll: &Roll,
) -> Result<Addressee, Refusal>
    ensures { result ≡ target_of message.now header dump roll.now }
{
    let Header { parts, flags } = read_header(message, header, dump)?;
    if dump {
        return Ok(Addressee::Unnamed(flags));
    }
    let position = find_port(message, header, parts, roll)?;
    Ok(Addressee::Port(Target { position, flags }))
}
