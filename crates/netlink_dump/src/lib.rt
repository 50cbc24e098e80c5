// The messages of a dump, beside those that any message has: their flag, and the message that ends it.
#![tactic(auto)]

ghost use Rattle.std.specs.Prelude.{◌≡◌, ◌≤◌, length};
ghost use Rattle.page.specs.Page.{Wrote};
ghost use Rattle.netlink_dump.specs.Dump.{done_message};

use netlink_headers::headers::MessageHeader;
use netlink_write::headers::put_message_header;
use page::put_u32;

// The message flag of every message of a dump.
pub const MULTI: u16 = 2;

// The type of the message that ends a dump, and its length.
const DONE: u16 = 3;

const LENGTH: usize = 20;

// DONE, the end of the dump that a request asked for, whose header is h: 20 bytes.
pub fn put_done(page: &mut [u8], h: MessageHeader) -> usize
    requires { 20 ≤ length page.old }
    ensures { Wrote (done_message h) page.old page.new result }
{
    let header = MessageHeader {
        length: LENGTH as u32,
        kind: DONE,
        flags: MULTI,
        sequence: h.sequence,
        port: h.port,
    };
    put_message_header(page, header);
    put_u32(&mut page[MessageHeader::SIZE..], 0);
    LENGTH
}
