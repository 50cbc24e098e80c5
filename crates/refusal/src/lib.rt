// The refusals of document 01's table, with its number, errno and detail for each.
#![tactic(auto)]

ghost use Rattle.std.specs.Prelude.{◌≡◌};
ghost use Rattle.refusal.specs.Refusal.{row_of, number_of, of_fault};

use netlink::policy::Fault;
use netlink_error::Detail;

// A place is the offset of an attribute's header from the start of the request.
#[derive(Clone, Copy)]
pub enum Refusal {
    // 1: the box breaks a rule.
    Box,
    // 2: the page is too short.
    Page,
    // 3: the datagram is too long, the position is past its end, or 1 to 15 bytes are left.
    Datagram,
    // 4: the message's length is below 16 or more than is left.
    Length,
    // 5: the type is not the family.
    Family,
    // 6: the length is 16 to 19.
    Short,
    // 7: the command is not listed.
    Command,
    // 8: both DUMP bits.
    Dump,
    // 9: a SET by a sender who is not admin.
    Permission,
    // 10: 1 to 3 bytes left in a parent, or an attribute's length below 4 or more than left.
    Broken(usize),
    // 11: a type that is not listed here.
    Unlisted(usize),
    // 12: a payload or type bits that are wrong.
    Payload(usize),
    // 13: a required attribute of the top level is absent: its type.
    MissingTop(usize),
    // 13: a required attribute of a nest is absent: its type, and the nest's place.
    MissingIn(usize, usize),
    // 14: neither index nor name of a port.
    NoPort(usize),
    // 15: a header flag other than 1 and 2.
    HeaderFlag(usize),
    // 16: no such port.
    UnknownPort(usize),
    // 17: the index is found, its name differs.
    OtherName(usize),
    // 18: the forms of a bitset are mixed.
    Mixed(usize),
    // 19: a bitmap is too short.
    ShortBitmap(usize),
    // 20: a bit at or past N.
    PastLength(usize),
    // 21: a bit's name is unknown.
    UnknownBit(usize),
    // 22: a BIT with neither index nor name.
    NoBit(usize),
    // 23: a BIT whose index and name mean two bits.
    TwoBits(usize),
    // 24: the id of a name list that is not offered, or that of the private flags without a port.
    NotOffered(usize),
    // 25: a reply that is too long, with its ACK.
    LongReply,
}

// A row of the table: the number, the errno of the error message (0 where none is written), and what the message says beside it.
#[derive(Clone, Copy)]
pub struct Row {
    pub number: u32,
    pub errno: u32,
    pub detail: Detail,
}

fn as_row(number: u32, errno: u32, detail: Detail) -> Row
    ensures { result ≡ record { number = number; errno = errno; detail = detail } }
{
    Row {
        number,
        errno,
        detail,
    }
}

impl Refusal {
    // Document 01's table.
    pub fn row(self) -> Row
        ensures { result ≡ row_of self }
    {
        match self {
            Refusal::Box => as_row(1, 0, Detail::Nothing),
            Refusal::Page => as_row(2, 0, Detail::Nothing),
            Refusal::Datagram => as_row(3, 0, Detail::Nothing),
            Refusal::Length => as_row(4, 0, Detail::Nothing),
            Refusal::Family => as_row(5, 2, Detail::Nothing),
            Refusal::Short => as_row(6, 22, Detail::Nothing),
            Refusal::Command => as_row(7, 95, Detail::Nothing),
            Refusal::Dump => as_row(8, 95, Detail::Nothing),
            Refusal::Permission => as_row(9, 1, Detail::Nothing),
            Refusal::Broken(at) => as_row(10, 22, Detail::Offset(at)),
            Refusal::Unlisted(at) => as_row(11, 22, Detail::Offset(at)),
            Refusal::Payload(at) => as_row(12, 22, Detail::Offset(at)),
            Refusal::MissingTop(kind) => as_row(13, 22, Detail::MissTop(kind)),
            Refusal::MissingIn(kind, nest) => as_row(13, 22, Detail::MissIn(kind, nest)),
            Refusal::NoPort(at) => as_row(14, 22, Detail::Offset(at)),
            Refusal::HeaderFlag(at) => as_row(15, 95, Detail::Offset(at)),
            Refusal::UnknownPort(at) => as_row(16, 19, Detail::Offset(at)),
            Refusal::OtherName(at) => as_row(17, 19, Detail::Offset(at)),
            Refusal::Mixed(at) => as_row(18, 22, Detail::Offset(at)),
            Refusal::ShortBitmap(at) => as_row(19, 22, Detail::Offset(at)),
            Refusal::PastLength(at) => as_row(20, 95, Detail::Offset(at)),
            Refusal::UnknownBit(at) => as_row(21, 95, Detail::Offset(at)),
            Refusal::NoBit(at) => as_row(22, 22, Detail::Offset(at)),
            Refusal::TwoBits(at) => as_row(23, 22, Detail::Offset(at)),
            Refusal::NotOffered(at) => as_row(24, 95, Detail::Offset(at)),
            Refusal::LongReply => as_row(25, 90, Detail::Nothing),
        }
    }

    pub fn number(self) -> u32
        ensures { result ≡ number_of self }
    {
        let row = self.row();
        row.number
    }
}

// The refusal of an attribute's fault at its place.
pub fn of_fault(fault: Fault, at: usize) -> Refusal
    ensures { result ≡ of_fault fault at }
{
    match fault {
        Fault::Length => Refusal::Broken(at),
        Fault::Unknown => Refusal::Unlisted(at),
        Fault::Payload => Refusal::Payload(at),
    }
}
