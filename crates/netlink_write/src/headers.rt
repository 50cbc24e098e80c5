// The three wire structures of fixed size.
#![tactic(auto, using(crate::proofs::headers::Laws::header_laws))]

ghost use Rattle.std.specs.Prelude.{◌≡◌, ◌≤◌, ◌++◌, length};
ghost use Rattle.basics.specs.Numbers.{le16, le32};
ghost use Rattle.basics.specs.Put.{put};
ghost use Rattle.netlink_write.specs.Headers.{message_header_bytes, generic_header_bytes, attribute_header_bytes};

use netlink_headers::headers::{GenericHeader, MessageHeader};
use page::{put_u16, put_u32};

// Two numbers of 16 bits: 4 bytes.
fn put_two_u16(page: &mut [u8], first: u16, second: u16)
    requires { 4 ≤ length page.old }
    ensures { page.new ≡ put page.old (le16 first ++ le16 second) }
{
    put_u16(page, first);
    put_u16(&mut page[2..], second);
}

// Two numbers of 32 bits: 8 bytes. Two lines each, so that a function of any size would be no plainer.
pub fn put_two_u32(page: &mut [u8], first: u32, second: u32)
    requires { 8 ≤ length page.old }
    ensures { page.new ≡ put page.old (le32 first ++ le32 second) }
{
    put_u32(page, first);
    put_u32(&mut page[4..], second);
}

// 16 bytes.
pub fn put_message_header(page: &mut [u8], h: MessageHeader)
    requires { 16 ≤ length page.old }
    ensures { page.new ≡ put page.old (message_header_bytes h) }
{
    put_u32(page, h.length);
    put_two_u16(&mut page[4..], h.kind, h.flags);
    put_two_u32(&mut page[8..], h.sequence, h.port);
}

// 4 bytes.
#[tactic(auto, unfolding(basics::specs::Put::put, crate::specs::Headers::generic_header_bytes))]
pub fn put_generic_header(page: &mut [u8], h: GenericHeader)
    requires { 4 ≤ length page.old }
    ensures { page.new ≡ put page.old (generic_header_bytes h) }
{
    let [low, high] = h.reserved.to_le_bytes();
    page[..4].copy_from_slice(&[h.command, h.version, low, high]);
}

// 4 bytes: the stated length, and the type with the two bits above it.
pub fn put_attribute_header(page: &mut [u8], stated: u16, kind: u16)
    requires { 4 ≤ length page.old }
    ensures { page.new ≡ put page.old (attribute_header_bytes stated kind) }
{
    put_two_u16(page, stated, kind);
}
