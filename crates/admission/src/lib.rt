// Whether a message is taken up, by its two headers: skipped, and refusals 5 to 9.
#![tactic(auto)]

ghost use Rattle.std.specs.Prelude.{◌≡◌};
ghost use Rattle.admission.specs.Admission.{is_dump, no_dump, not_permitted, permitted, strset_permitted, admitted};

use crate::commands::{Command, Listed, read_command};
use netlink_headers::headers::{GenericHeader, GenericHeaderRead, MessageHeader};
use refusal::Refusal;

pub mod commands;

// What a message that is not refused comes to.
#[derive(Clone, Copy)]
pub enum Admission {
    Admitted(Command),
    Strset,
    Skipped,
}

// Whether a message asks for a dump: both DUMP bits.
pub fn is_dump(h: MessageHeader) -> bool
    ensures { result ≡ is_dump h }
{
    h.flags / 256 % 4 == 3
}

// Whether a message asks for the dump of a command that has none.
fn no_dump(h: MessageHeader, command: Command) -> bool
    ensures { result ≡ no_dump h command }
{
    if is_dump(h) {
        return !command.dump;
    }
    false
}

// Whether a command is a SET and its sender is not admin.
fn not_permitted(command: Command, admin: bool) -> bool
    ensures { result ≡ not_permitted command admin }
{
    if command.change {
        return !admin;
    }
    false
}

// Judges a listed command by whether it may be dumped, then by its sender.
fn permit(h: MessageHeader, command: Command, admin: bool) -> Result<Admission, Refusal>
    ensures { result ≡ permitted h admin command }
{
    if no_dump(h, command) {
        return Err(Refusal::Dump);
    }
    if not_permitted(command, admin) {
        return Err(Refusal::Permission);
    }
    Ok(Admission::Admitted(command))
}

// Judges a STRSET_GET, which may not be dumped.
fn permit_strset(h: MessageHeader) -> Result<Admission, Refusal>
    ensures { result ≡ strset_permitted h }
{
    if is_dump(h) {
        return Err(Refusal::Dump);
    }
    Ok(Admission::Strset)
}

// Judges a message, cut at its stated end, and its header h.
pub fn admit(
    message: &[u8],
    h: MessageHeader,
    family: u32,
    admin: bool,
) -> Result<Admission, Refusal>
    ensures { result ≡ admitted message.now h family admin }
{
    if h.kind < 16 {
        return Ok(Admission::Skipped);
    }
    if h.flags % 2 == 0 {
        return Ok(Admission::Skipped);
    }
    let kind = h.kind as u32;
    if kind != family {
        return Err(Refusal::Family);
    }
    let GenericHeaderRead::Header(generic) = GenericHeader::read(message, MessageHeader::SIZE)
    else {
        return Err(Refusal::Short);
    };
    let Some(listed) = read_command(generic.command) else {
        return Err(Refusal::Command);
    };
    match listed {
        Listed::Strset => permit_strset(h),
        Listed::OfSet(command) => permit(h, command, admin),
    }
}
