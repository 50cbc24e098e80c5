// The top level of a request: refusals 10 to 13.
ghost use Rattle.std.specs.Prelude.{◌≡◌};
ghost use Rattle.request.specs.Top.{nests_of, top_of};

use crate::parts::{TopParts, top_parts};
use crate::policies::{BITSET, HEADER, top_policy};
use netlink::walk::{Stop, walk};
use netlink_headers::headers::{GenericHeader, MessageHeader};
use refusal::{Refusal, of_fault};

// Judges what the top level lacks: the header, then in a SET the bitset.
fn judge_nests(change: bool, parts: TopParts) -> Result<TopParts, Refusal>
    ensures { result ≡ nests_of change parts }
{
    if !parts.header.present {
        return Err(Refusal::MissingTop(HEADER));
    }
    if change {
        if !parts.bitset.present {
            return Err(Refusal::MissingTop(BITSET));
        }
    }
    Ok(parts)
}

// Walks the top level of a message whole, then judges what it lacks.
pub fn read_top(message: &[u8], change: bool) -> Result<TopParts, Refusal>
    ensures { result ≡ top_of message.now change }
{
    let walked = walk(
        top_policy(change),
        message,
        MessageHeader::SIZE + GenericHeader::SIZE,
    );
    let stop = walked.stop;
    if let Stop::At { fault, at } = stop {
        return Err(of_fault(fault, at));
    }
    let slots = walked.slots;
    judge_nests(change, top_parts(slots))
}
