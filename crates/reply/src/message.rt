// The message: its two headers, the port, the set.
ghost use Rattle.std.specs.Prelude.{◌≡◌, ◌+◌, ◌≤◌, length};
ghost use Rattle.basics.specs.Put.{put};
ghost use Rattle.bits.specs.Set.{words_for};
ghost use Rattle.page.specs.Page.{Wrote};
ghost use Rattle.reply.specs.Message.{heading_of, headers_bytes, content_of, attributes_bytes, reply_bytes};

use bitset_reply::set::put_set;
use index_name::put_index_nest;
use netlink_headers::headers::{GenericHeader, MessageHeader};
use netlink_write::headers::{put_generic_header, put_message_header};

// The type of the port's nest at the top level, and the version of the family.
const HEADER: u16 = 1;

const VERSION: u8 = 1;

// What the two headers say beside the message's length: the family as message type, the message flags, the request's sequence and port id,
// and the reply's command.
#[derive(Clone, Copy)]
pub struct Heading {
    pub family: u16,
    pub flags: u16,
    pub sequence: u32,
    pub port: u32,
    pub command: u8,
}

// What the reply to a request says there.
pub fn heading_of(h: MessageHeader, flags: u16, command: u8) -> Heading
    ensures { result ≡ heading_of h flags command }
{
    Heading {
        family: h.kind,
        flags,
        sequence: h.sequence,
        port: h.port,
        command,
    }
}

// The two headers of a message whose attributes already stand behind them.
pub fn close_message(page: &mut [u8], h: Heading, attributes: usize) -> usize
    requires { (attributes ≤ 65535) × (20 ≤ length page.old) }
    ensures value { result ≡ attributes + 20 }
    ensures page_after { page.new ≡ put page.old (headers_bytes h (attributes + 20)) }
{
    let total = attributes + 20;
    put_message_header(
        page,
        MessageHeader {
            length: total as u32,
            kind: h.family,
            flags: h.flags,
            sequence: h.sequence,
            port: h.port,
        },
    );
    put_generic_header(
        &mut page[16..],
        GenericHeader {
            command: h.command,
            version: VERSION,
            reserved: 0,
        },
    );
    total
}

// The port's nest, then the set's.
fn put_attributes(
    page: &mut [u8],
    index: u32,
    name: &[u8],
    compact: bool,
    names: &[u8],
    words: &[u32],
    n: usize,
) -> usize
    requires { (length name.now ≤ 16) × (length words.now ≡ words_for n) × (n ≤ 512) × (26680 ≤ length page.old) }
    ensures wrote { Wrote (attributes_bytes (content_of index name.now compact names.now words.now n)) page.old page.new result }
    ensures upper_bound { result ≤ 26680 }
{
    let port = put_index_nest(page, HEADER, index, name);
    let set = put_set(&mut page[port..], compact, names, words, n);
    port + set
}

// The reply about one set of one port: its index and name, then the n bits in the words, with their names.
pub fn put_reply(
    page: &mut [u8],
    h: Heading,
    index: u32,
    name: &[u8],
    compact: bool,
    names: &[u8],
    words: &[u32],
    n: usize,
) -> usize
    requires { (length name.now ≤ 16) × (length words.now ≡ words_for n) × (n ≤ 512) × (26700 ≤ length page.old) }
    ensures wrote { Wrote (reply_bytes h (content_of index name.now compact names.now words.now n)) page.old page.new result }
    ensures upper_bound { result ≤ 26700 }
{
    let attributes = put_attributes(&mut page[20..], index, name, compact, names, words, n);
    close_message(page, h, attributes)
}
