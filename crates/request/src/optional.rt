// The header level of a request that may name no port: refusals 10 to 12 in it, and 15 to 17.
ghost use Rattle.std.specs.Prelude.{◌≡◌};
ghost use Rattle.request.specs.Optional.{optional_header_of, optional_target_of};

use crate::header::{Header, gives_port, judge_flags};
use crate::parts::header_parts;
use crate::policies::header_policy;
use crate::port::find_port;
use crate::target::{Addressee, Target};
use netlink::walk::{Slot, Stop, walk};
use netlink_attributes::payload;
use refusal::{Refusal, of_fault};
use roll::Roll;

// Walks the header nest whole, then judges its flags.
fn read_optional_header(message: &[u8], header: Slot) -> Result<Header, Refusal>
    ensures { result ≡ optional_header_of message.now header }
{
    let start = header.start;
    let end = header.end;
    let walked = walk(header_policy(), payload(message, 0, end), start);
    let stop = walked.stop;
    if let Stop::At { fault, at } = stop {
        return Err(of_fault(fault, at));
    }
    let slots = walked.slots;
    judge_flags(message, header_parts(slots))
}

// Reads the header nest of a message and finds its port in the roll, where it names one.
pub fn read_optional_target(message: &[u8], header: Slot, roll: &Roll) -> Result<Addressee, Refusal>
    ensures { result ≡ optional_target_of message.now header roll.now }
{
    let Header { parts, flags } = read_optional_header(message, header)?;
    if !gives_port(parts) {
        return Ok(Addressee::Unnamed(flags));
    }
    let position = find_port(message, header, parts, roll)?;
    Ok(Addressee::Port(Target { position, flags }))
}
