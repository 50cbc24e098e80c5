// What an admitted request asks for: judged level by level, by value. No stage here sees the page or the settings.
#![tactic(auto)]

ghost use Rattle.std.specs.Prelude.{◌≡◌};
ghost use Rattle.boxes.specs.Box.{box_of};
ghost use Rattle.decision.specs.Decision.{bitset_decision, header_decision, decided};

use admission::commands::Command;
use bitset::judge::judge_bitset;
use bitset_form::Form;
use layout::names_of;
use netlink::walk::Slot;
use netlink_attributes::{payload, place};
use refusal::Refusal;
use request::parts::TopParts;
use request::target::{Addressee, Target, read_target};
use request::top::read_top;
use roll::Roll;

// What a request that is not refused asks for.
#[derive(Clone, Copy)]
pub enum Plan {
    Get(Target),
    // All ports, one a call: the flags of the header.
    Dump(u32),
    // The port whose set takes the form, and where the bitset stands in the request.
    Set {
        position: usize,
        bitset: usize,
        form: Form,
    },
}

// The bitset of a SET. It is walked in the message cut at the nest's end, so that every place counts from the request's start.
fn decide_bitset(m: &[u8], bitset: Slot, names: &[u8], position: usize) -> Result<Plan, Refusal>
    ensures { result ≡ bitset_decision m.now bitset names.now position }
{
    let form = judge_bitset(payload(m, 0, bitset.end), bitset.start, names)?;
    Ok(Plan::Set {
        position,
        bitset: place(bitset.start),
        form,
    })
}

// The header level, then in a SET the bitset.
fn decide_header<'a>(
    m: &[u8],
    command: Command,
    dump: bool,
    parts: TopParts,
    roll: &Roll,
    debug: &'a [u8],
    flags: &'a [u8],
) -> Result<Plan, Refusal>
    ensures { result ≡ header_decision (box_of roll.now debug.now flags.now) m.now command dump parts }
{
    let header = parts.header;
    let bitset = parts.bitset;
    let set = command.set;
    match read_target(m, header, dump, roll)? {
        Addressee::Unnamed(asked) => Ok(Plan::Dump(asked)),
        Addressee::Port(target) => {
            if command.change {
                let names = names_of(set, debug, flags);
                return decide_bitset(m, bitset, names, target.position);
            }
            Ok(Plan::Get(target))
        }
    }
}

// The top level of a message whose command is admitted, then the levels below it.
pub fn decide<'a>(
    m: &[u8],
    command: Command,
    dump: bool,
    roll: &Roll,
    debug: &'a [u8],
    flags: &'a [u8],
) -> Result<Plan, Refusal>
    ensures { result ≡ decided (box_of roll.now debug.now flags.now) m.now command dump }
{
    let parts = read_top(m, command.change)?;
    decide_header(m, command, dump, parts, roll, debug, flags)
}
