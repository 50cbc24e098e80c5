// What a call says back, and the answers that write: an error message, an ACK.
#![tactic(auto)]

ghost use Rattle.std.specs.Prelude.{◌≡◌, ◌≤◌, length};
ghost use Rattle.page.specs.Page.{Wrote};
ghost use Rattle.response.specs.Answer.{kind_number, refusal_number, Responds, error_response, response_of, ack_bytes, ack_length};
ghost use Rattle.response.specs.declared.Kind.TheVariants.{Done};

use netlink_error::{put_ack, put_error};
use netlink_headers::headers::MessageHeader;
use refusal::Refusal;

// The bytes of an ACK.
const ACK: usize = 36;

#[derive(Clone, Copy)]
pub enum Kind {
    End,
    Skipped,
    Done,
    Refused(Refusal),
}

impl Kind {
    // 0 end, 1 skipped, 2 done, 3 refused.
    pub fn number(self) -> u32
        ensures { result ≡ kind_number self }
    {
        match self {
            Kind::End => 0,
            Kind::Skipped => 1,
            Kind::Done => 2,
            Kind::Refused(_) => 3,
        }
    }

    // Document 01's number of the refusal, 0 if there is none.
    pub fn refusal(self) -> u32
        ensures { result ≡ refusal_number self }
    {
        match self {
            Kind::End => 0,
            Kind::Skipped => 0,
            Kind::Done => 0,
            Kind::Refused(why) => why.number(),
        }
    }
}

// The kind, the next position, the next place and the count of bytes written. The place is 0 but after a port's reply of a dump.
#[derive(Clone, Copy)]
pub struct Answer {
    pub kind: Kind,
    pub next: usize,
    pub place: usize,
    pub written: usize,
}

// Writes the error message of a refusal that has an errno. The one place that writes one.
pub fn refuse(page: &mut [u8], message: &[u8], why: Refusal, next: usize) -> Answer
    requires { (32768 ≤ length page.old) × (16 ≤ length message.now) }
    ensures { Responds (error_response message.now next why) page.old page.new result }
{
    let row = why.row();
    let errno = row.errno;
    let detail = row.detail;
    let written = put_error(page, message, errno, detail);
    Answer {
        kind: Kind::Refused(why),
        next,
        place: 0,
        written,
    }
}

// How long the ACK is, where the request asks for one.
pub fn ack_length(h: MessageHeader) -> usize
    ensures value { result ≡ ack_length h }
    ensures upper_bound { result ≤ 36 }
{
    if h.flags / 4 % 2 == 1 {
        return ACK;
    }
    0
}

// The ACK where the request asks for one.
pub fn put_ack_if_asked(page: &mut [u8], message: &[u8], h: MessageHeader) -> usize
    requires { (36 ≤ length page.old) × (16 ≤ length message.now) }
    ensures wrote { Wrote (ack_bytes message.now h) page.old page.new result }
    ensures upper_bound { result ≤ 36 }
{
    if h.flags / 4 % 2 == 1 {
        return put_ack(page, message);
    }
    0
}

// A done SET: an ACK if asked, else nothing.
pub fn acknowledge(page: &mut [u8], message: &[u8], h: MessageHeader, next: usize) -> Answer
    requires { (32768 ≤ length page.old) × (16 ≤ length message.now) }
    ensures { Responds (response_of Done next (ack_bytes message.now h)) page.old page.new result }
{
    let written = put_ack_if_asked(page, message, h);
    Answer {
        kind: Kind::Done,
        next,
        place: 0,
        written,
    }
}
