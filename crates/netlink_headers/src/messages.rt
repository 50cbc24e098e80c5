// One message of a datagram.
ghost use Rattle.std.specs.Prelude.{◌≡◌};
ghost use Rattle.netlink_headers.specs.Messages.{message_at};

use crate::headers::{MessageHeader, MessageHeaderRead};
use crate::lengths::Stated;
use numbers::capped;

#[derive(Clone, Copy)]
pub enum MessageRead {
    // The message ends at its stated end; `next` is past its step, at most the datagram's end.
    Message {
        header: MessageHeader,
        end: usize,
        next: usize,
    },
    // A length below 16, or more than is left.
    Misstated,
    // 1 to 15 bytes left.
    Cut,
    // Nothing left.
    AtEnd,
    // A position past the end.
    Outside,
}

// The message at a position of a datagram. The position needs no alignment.
pub fn read_message(s: &[u8], at: usize) -> MessageRead
    ensures { result ≡ message_at s.now at }
{
    if s.len() < at {
        return MessageRead::Outside;
    }
    if at == s.len() {
        return MessageRead::AtEnd;
    }
    let MessageHeaderRead::Header(header) = MessageHeader::read(s, at) else {
        return MessageRead::Cut;
    };
    let stated = header.length as usize;
    if stated < MessageHeader::SIZE {
        return MessageRead::Misstated;
    }
    if s.len() - at < stated {
        return MessageRead::Misstated;
    }
    let step = Stated::of(header.length).step();
    MessageRead::Message {
        header,
        end: at + stated,
        next: capped(at + step.bytes(), s.len()),
    }
}
