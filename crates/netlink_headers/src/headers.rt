// The three wire structures of fixed size, each with its size and the function that reads it.
ghost use Rattle.std.specs.Prelude.{◌≡◌};
ghost use Rattle.netlink_headers.specs.Headers.{message_header_at, generic_header_at, attribute_header_at};

use numbers::{byte_at, u16_at, u32_at};

#[derive(Clone, Copy)]
pub struct MessageHeader {
    pub length: u32,
    pub kind: u16,
    pub flags: u16,
    pub sequence: u32,
    pub port: u32,
}

#[derive(Clone, Copy)]
pub enum MessageHeaderRead {
    Header(MessageHeader),
    Short,
}

impl MessageHeader {
    pub const SIZE: usize = 16;

    // The header at a position, Short with fewer than 16 bytes left.
    pub fn read(s: &[u8], at: usize) -> MessageHeaderRead
        ensures { result ≡ message_header_at s.now at }
    {
        if s.len() < MessageHeader::SIZE {
            return MessageHeaderRead::Short;
        }
        if s.len() - MessageHeader::SIZE < at {
            return MessageHeaderRead::Short;
        }
        MessageHeaderRead::Header(MessageHeader {
            length: u32_at(s, at),
            kind: u16_at(s, at + 4),
            flags: u16_at(s, at + 6),
            sequence: u32_at(s, at + 8),
            port: u32_at(s, at + 12),
        })
    }
}

#[derive(Clone, Copy)]
pub struct GenericHeader {
    pub command: u8,
    pub version: u8,
    pub reserved: u16,
}

#[derive(Clone, Copy)]
pub enum GenericHeaderRead {
    Header(GenericHeader),
    Short,
}

impl GenericHeader {
    pub const SIZE: usize = 4;

    // The header at a position, Short with fewer than 4 bytes left.
    pub fn read(s: &[u8], at: usize) -> GenericHeaderRead
        ensures { result ≡ generic_header_at s.now at }
    {
        if s.len() < GenericHeader::SIZE {
            return GenericHeaderRead::Short;
        }
        if s.len() - GenericHeader::SIZE < at {
            return GenericHeaderRead::Short;
        }
        GenericHeaderRead::Header(GenericHeader {
            command: byte_at(s, at),
            version: byte_at(s, at + 1),
            reserved: u16_at(s, at + 2),
        })
    }
}

// `kind` holds the type and the two bits above it.
#[derive(Clone, Copy)]
pub struct AttributeHeader {
    pub length: u16,
    pub kind: u16,
}

#[derive(Clone, Copy)]
pub enum AttributeHeaderRead {
    Header(AttributeHeader),
    Short,
}

impl AttributeHeader {
    pub const SIZE: usize = 4;

    // The header at a position, Short with fewer than 4 bytes left.
    pub fn read(s: &[u8], at: usize) -> AttributeHeaderRead
        ensures { result ≡ attribute_header_at s.now at }
    {
        if s.len() < AttributeHeader::SIZE {
            return AttributeHeaderRead::Short;
        }
        if s.len() - AttributeHeader::SIZE < at {
            return AttributeHeaderRead::Short;
        }
        AttributeHeaderRead::Header(AttributeHeader {
            length: u16_at(s, at),
            kind: u16_at(s, at + 2),
        })
    }
}
