// The error message, which with the number 0 is the ACK.
#![tactic(auto)]

ghost use Rattle.std.specs.Prelude.{◌≡◌, ◌≤◌, length};
ghost use Rattle.basics.specs.Put.{put};
ghost use Rattle.page.specs.Page.{Wrote};
ghost use Rattle.netlink_error.specs.declared.Detail.TheVariants.{Nothing};
ghost use Rattle.netlink_error.specs.Error.{detail_bytes, flags_of, negative, error_start, error_message};

use netlink_headers::headers::MessageHeader;
use netlink_write::attributes::put_low_number;
use netlink_write::headers::put_message_header;
use numbers::u32_at;
use page::bytes::put_bytes;
use page::put_u32;

// The message type of an error message, its flags, and the types of its attributes.
const ERROR: u16 = 2;

const CAPPED: u16 = 0x100;

const CAPPED_AND_ACK_TLVS: u16 = 0x300;

const OFFS: u16 = 2;

const MISS_TYPE: u16 = 5;

const MISS_NEST: u16 = 6;

// Where the request's header stands in an error message, and where the detail.
const ECHO: usize = 20;

const DETAIL: usize = 36;

// What an error message tells beside its number.
#[derive(Clone, Copy)]
pub enum Detail {
    Nothing,
    // Where the fault stands, counted from the start of the request.
    Offset(usize),
    // The type that the top level lacks.
    MissTop(usize),
    // The type that is missing, and where the nest stands that lacks it.
    MissIn(usize, usize),
}

// An error message of 36, 44 or 52 bytes.
pub fn put_error(page: &mut [u8], request: &[u8], errno: u32, detail: Detail) -> usize
    requires { (52 ≤ length page.old) × (16 ≤ length request.now) }
    ensures wrote { Wrote (error_message request.now errno detail) page.old page.new result }
    ensures upper_bound { result ≤ 52 }
{
    let n = put_detail(&mut page[DETAIL..], detail);
    let total = n + DETAIL;
    put_start(page, request, errno, flags_of(detail), total as u32);
    total
}

// An ACK: 36 bytes.
pub fn put_ack(page: &mut [u8], request: &[u8]) -> usize
    requires { (36 ≤ length page.old) × (16 ≤ length request.now) }
    ensures wrote { Wrote (error_message request.now 0 Nothing) page.old page.new result }
    ensures value { result ≡ 36 }
{
    put_start(page, request, 0, CAPPED, DETAIL as u32);
    DETAIL
}

// The 36 bytes before the detail.
fn put_start(page: &mut [u8], request: &[u8], errno: u32, flags: u16, total: u32)
    requires { (36 ≤ length page.old) × (16 ≤ length request.now) }
    ensures { page.new ≡ put page.old (error_start request.now errno flags total) }
{
    let header = MessageHeader {
        length: total,
        kind: ERROR,
        flags,
        sequence: u32_at(request, 8),
        port: u32_at(request, 12),
    };
    put_message_header(page, header);
    put_u32(&mut page[MessageHeader::SIZE..], negative(errno));
    put_bytes(&mut page[ECHO..], &request[..MessageHeader::SIZE]);
}

fn put_detail(page: &mut [u8], detail: Detail) -> usize
    requires { 16 ≤ length page.old }
    ensures wrote { Wrote (detail_bytes detail) page.old page.new result }
    ensures upper_bound { result ≤ 16 }
{
    match detail {
        Detail::Nothing => 0,
        Detail::Offset(at) => put_low_number(page, OFFS, at),
        Detail::MissTop(kind) => put_low_number(page, MISS_TYPE, kind),
        Detail::MissIn(kind, nest) => {
            put_low_number(page, MISS_TYPE, kind);
            let n = put_low_number(&mut page[8..], MISS_NEST, nest);
            n + 8
        }
    }
}

#[tactic(auto, unfolding(crate::specs::Error::flags_of))]
fn flags_of(detail: Detail) -> u16
    ensures { result ≡ flags_of detail }
{
    match detail {
        Detail::Nothing => CAPPED,
        Detail::Offset(_) | Detail::MissTop(_) | Detail::MissIn(_, _) => CAPPED_AND_ACK_TLVS,
    }
}

// Minus a number, as 32 bits.
#[tactic(auto, unfolding(crate::specs::Error::negative))]
fn negative(errno: u32) -> u32
    ensures { result ≡ negative errno }
{
    errno.wrapping_neg()
}
