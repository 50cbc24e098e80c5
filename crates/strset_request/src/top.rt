// The top level of a STRSET_GET: refusals 10 to 13.
ghost use Rattle.std.specs.Prelude.{◌≡◌};
ghost use Rattle.strset_request.specs.Top.{strset_parts, with_header, strset_top_of};

use crate::policies::{COUNTS_ONLY, HEADER, STRINGSETS, strset_policy};
use netlink::walk::{Slot, Stop, walk};
use netlink_headers::headers::{GenericHeader, MessageHeader};
use refusal::{Refusal, of_fault};

#[derive(Clone, Copy)]
pub struct StrsetParts {
    pub header: Slot,
    pub sets: Slot,
    pub counts: Slot,
}

fn strset_parts(slots: [Slot; 8]) -> StrsetParts
    ensures { result ≡ strset_parts slots }
{
    let header = slots[HEADER];
    let sets = slots[STRINGSETS];
    let counts = slots[COUNTS_ONLY];
    StrsetParts {
        header,
        sets,
        counts,
    }
}

// Judges what the top level lacks: the header.
fn judge_header(parts: StrsetParts) -> Result<StrsetParts, Refusal>
    ensures { result ≡ with_header parts }
{
    if !parts.header.present {
        return Err(Refusal::MissingTop(HEADER));
    }
    Ok(parts)
}

// Walks the top level of a message whole, then judges what it lacks.
pub fn read_strset_top(message: &[u8]) -> Result<StrsetParts, Refusal>
    ensures { result ≡ strset_top_of message.now }
{
    let walked = walk(
        strset_policy(),
        message,
        MessageHeader::SIZE + GenericHeader::SIZE,
    );
    let stop = walked.stop;
    if let Stop::At { fault, at } = stop {
        return Err(of_fault(fault, at));
    }
    let slots = walked.slots;
    judge_header(strset_parts(slots))
}
