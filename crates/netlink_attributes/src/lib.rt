// One attribute of a parent. A parent's contents are the bytes of a slice from a position to the slice's end.
#![tactic(auto)]

ghost use Rattle.std.specs.Prelude.{◌≡◌, ◌-◌, ◌/◌, ◌%◌};
ghost use Rattle.netlink_attributes.specs.Attributes.{attribute_at, part_of};

use netlink_headers::headers::{AttributeHeader, AttributeHeaderRead};
use netlink_headers::lengths::Stated;
use numbers::capped;

// Its type, the two bits above the type (2 for a nest, 1 for network byte order), where the payload starts and ends, and the place of the
// next attribute.
#[derive(Clone, Copy)]
pub struct Attribute {
    pub kind: u16,
    pub bits: u16,
    pub start: usize,
    pub end: usize,
    pub next: usize,
}

#[derive(Clone, Copy)]
pub enum AttributeRead {
    Attribute(Attribute),
    // 1 to 3 bytes left, or a length below 4 or more than is left.
    Broken,
    // Nothing left.
    End,
}

// The attribute of a header, whose upper two type bits stand apart.
fn headed(header: AttributeHeader, start: usize, end: usize, next: usize) -> Attribute
    ensures { result ≡ record { kind = header.kind % 16384; bits = header.kind / 16384; start = start; end = end; next = next } }
{
    Attribute {
        kind: header.kind % 16384,
        bits: header.kind / 16384,
        start,
        end,
        next,
    }
}

// The attribute at a position.
pub fn read_attribute(s: &[u8], at: usize) -> AttributeRead
    ensures { result ≡ attribute_at s.now at }
{
    if s.len() <= at {
        return AttributeRead::End;
    }
    let AttributeHeaderRead::Header(header) = AttributeHeader::read(s, at) else {
        return AttributeRead::Broken;
    };
    let stated = header.length as usize;
    if stated < AttributeHeader::SIZE {
        return AttributeRead::Broken;
    }
    if s.len() - at < stated {
        return AttributeRead::Broken;
    }
    let step = Stated::of(header.length as u32).step();
    let start = at + AttributeHeader::SIZE;
    let next = capped(at + step.bytes(), s.len());
    AttributeRead::Attribute(headed(header, start, at + stated, next))
}

// The part of the caller's bytes from start to end: an attribute's payload where it stands. Empty where the two lie outside the slice.
pub fn payload(s: &[u8], start: usize, end: usize) -> &[u8]
    ensures { result.now ≡ part_of s.now start end }
{
    if end < start {
        return &s[..0];
    }
    if s.len() < end {
        return &s[..0];
    }
    &s[start..end]
}

// The place of the attribute whose payload starts at `start`: its header's.
pub fn place(start: usize) -> usize
    ensures { result ≡ start - 4 }
{
    if start < AttributeHeader::SIZE {
        return 0;
    }
    start - AttributeHeader::SIZE
}
