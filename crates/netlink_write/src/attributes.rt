// Attributes and nests. All padding is written, as 0, and counted.
ghost use Rattle.std.specs.Prelude.{◌≡◌, ◌+◌, ◌%◌, ◌≤◌, ◌<◌, [], length};
ghost use Rattle.basics.specs.Numbers.{le32};
ghost use Rattle.basics.specs.Put.{put};
ghost use Rattle.page.specs.Page.{Wrote};
ghost use Rattle.netlink_write.specs.Headers.{attribute_header_bytes};
ghost use Rattle.netlink_write.specs.Attributes.{attr, name_bytes};

use crate::headers::put_attribute_header;
use crate::padded_name::put_padded_name;
use netlink_headers::headers::AttributeHeader;
use netlink_headers::lengths::{Stated, Step};
use page::bytes::put_filled;
use page::put_low;

// The type bit that marks a nest.
const NEST: u16 = 0x8000;

// An attribute.
pub fn put_attribute(page: &mut [u8], kind: u16, payload: &[u8]) -> usize
    requires { (length payload.now ≤ 65531) × (length payload.now + 7 ≤ length page.old) }
    ensures wrote { Wrote (attr kind payload.now) page.old page.new result }
    ensures upper_bound { result ≤ length payload.now + 7 }
{
    let n = payload.len();
    let stated = n + AttributeHeader::SIZE;
    let next = Stated::of(stated as u32).step().bytes();
    put_filled(
        &mut page[AttributeHeader::SIZE..],
        payload,
        n,
        next - AttributeHeader::SIZE,
    );
    put_attribute_header(page, stated as u16, kind);
    next
}

// A name: its bytes before the first NUL, and one NUL.
pub fn put_name(page: &mut [u8], kind: u16, name: &[u8]) -> usize
    requires { (length name.now ≤ 256) × (length name.now + 8 ≤ length page.old) }
    ensures wrote { Wrote (attr kind (name_bytes name.now)) page.old page.new result }
    ensures upper_bound { result ≤ length name.now + 8 }
{
    let n = put_padded_name(&mut page[AttributeHeader::SIZE..], name);
    // four bytes of header, and the NUL
    let stated = n + 5;
    let step = Stated::of(stated as u32).step().bytes();
    put_attribute_header(page, stated as u16, kind);
    step
}

// A flag: no payload.
pub fn put_flag(page: &mut [u8], kind: u16) -> usize
    requires { 4 ≤ length page.old }
    ensures wrote { Wrote (attr kind []) page.old page.new result }
    ensures value { result ≡ 4 }
{
    close_attribute(page, kind, 0).bytes()
}

// A number of 32 bits.
pub fn put_number(page: &mut [u8], kind: u16, x: u32) -> usize
    requires { 8 ≤ length page.old }
    ensures wrote { Wrote (attr kind (le32 x)) page.old page.new result }
    ensures value { result ≡ 8 }
{
    put_low_number(page, kind, x as usize)
}

// The low 32 bits of a number, as a place in a message is told.
pub fn put_low_number(page: &mut [u8], kind: u16, x: usize) -> usize
    requires { 8 ≤ length page.old }
    ensures wrote { Wrote (attr kind (le32 x)) page.old page.new result }
    ensures value { result ≡ 8 }
{
    put_low(&mut page[AttributeHeader::SIZE..], x);
    close_attribute(page, kind, 4).bytes()
}

// The header of an attribute whose payload, a multiple of 4 bytes, already stands behind it.
pub fn close_attribute(page: &mut [u8], kind: u16, payload: usize) -> Step
    requires { (payload ≤ 65531) × (payload % 4 ≡ 0) × (4 ≤ length page.old) }
    ensures result_value { result.0 ≡ payload + 4 }
    ensures page_after { page.new ≡ put page.old (attribute_header_bytes (payload + 4) kind) }
{
    let stated = payload + AttributeHeader::SIZE;
    put_attribute_header(page, stated as u16, kind);
    Stated::of(stated as u32).step()
}

// The header of a nest whose contents, all their padding counted, already stand behind it.
pub fn close_nest(page: &mut [u8], kind: u16, contents: usize) -> Step
    requires { (kind < 16384) × (contents ≤ 65531) × (contents % 4 ≡ 0) × (4 ≤ length page.old) }
    ensures result_value { result.0 ≡ contents + 4 }
    ensures page_after { page.new ≡ put page.old (attribute_header_bytes (contents + 4) (kind + 32768)) }
{
    close_attribute(page, kind + NEST, contents)
}
