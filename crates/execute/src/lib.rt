// A command that is admitted: decided by value, then carried out.
#![tactic(auto)]

pub mod replies;

ghost use Rattle.std.specs.Prelude.{◌≡◌, ◌≤◌, ◌<◌, length};
ghost use Rattle.roll.specs.Record.{port_count};
ghost use Rattle.boxes.specs.Box.{box_of, state_of};
ghost use Rattle.response.specs.Answer.{Performs};
ghost use Rattle.decision.specs.PortIn.{PortIn};
ghost use Rattle.execute.specs.Execute.{request_outcome};
ghost use Rattle.execute.specs.CarriedOut.{changed_by, plan_outcome};
ghost use Rattle.execute.specs.Fit.{Fit};

use crate::replies::{dump, get};
use admission::commands::Command;
use admission::is_dump;
use bitset_form::Form;
use boxes::lists::sizes;
use decision::{Plan, decide};
use layout::change::apply;
use layout::{Set, set_place, size_of, widths};
use netlink_headers::headers::MessageHeader;
use response::{Answer, acknowledge, refuse};
use roll::Roll;
use roll::table::PORTS;

// An admitted request: its header, its position and the one after it, the place that a dump has come to, and its command.
#[derive(Clone, Copy)]
pub struct Request {
    pub header: MessageHeader,
    pub position: usize,
    pub next: usize,
    pub place: usize,
    pub command: Command,
}

// A form applied to a set of the port at a position.
fn change(
    settings: &mut [u32],
    roll: &Roll,
    debug: &[u8],
    flags: &[u8],
    position: usize,
    set: Set,
    form: Form,
)
    requires position_bound { position < port_count roll.now }
    requires fit { Fit (box_of roll.now debug.now flags.now) (state_of settings.old) }
    ensures { state_of settings.new ≡ changed_by (box_of roll.now debug.now flags.now) (state_of settings.old) position set form }
{
    let width = widths(sizes(debug, flags));
    // Where a set lies does not depend on how many ports follow.
    let at = set_place(PORTS, width, position, set);
    let w = size_of(width, set);
    let mask = form.mask;
    let value = form.value;
    apply(settings, at, w, mask, value);
}

// Carries a plan out: all is judged, and only now is the page written and a set changed.
fn carry_out<'a>(
    page: &mut [u8],
    settings: &mut [u32],
    roll: &Roll,
    debug: &'a [u8],
    flags: &'a [u8],
    m: &[u8],
    request: Request,
    plan: Plan,
) -> Answer
    requires in_bounds { (32768 ≤ length page.old) × (16 ≤ length m.now) × PortIn roll.now plan }
    requires fit { Fit (box_of roll.now debug.now flags.now) (state_of settings.old) }
    ensures { Performs (plan_outcome plan (box_of roll.now debug.now flags.now) (state_of settings.old) m.now request) page.old page.new (state_of settings.new) result }
{
    match plan {
        Plan::Get(port) => {
            return get(page, settings, roll, debug, flags, m, request, port);
        }
        Plan::Dump(asked) => {
            return dump(page, settings, roll, debug, flags, request, asked);
        }
        Plan::Set {
            position,
            bitset: _,
            form,
        } => {
            let command = request.command;
            let set = command.set;
            change(settings, roll, debug, flags, position, set, form);
            let h = request.header;
            return acknowledge(page, m, h, request.next);
        }
    }
}

// Judges an admitted request by value, then carries out what it asks for.
pub fn execute<'a>(
    page: &mut [u8],
    settings: &mut [u32],
    roll: &Roll,
    debug: &'a [u8],
    flags: &'a [u8],
    m: &[u8],
    request: Request,
) -> Answer
    requires in_bounds { (32768 ≤ length page.old) × (16 ≤ length m.now) }
    requires fit { Fit (box_of roll.now debug.now flags.now) (state_of settings.old) }
    ensures { Performs (request_outcome (box_of roll.now debug.now flags.now) (state_of settings.old) m.now request) page.old page.new (state_of settings.new) result }
{
    let command = request.command;
    let h = request.header;
    match decide(m, command, is_dump(h), roll, debug, flags) {
        Err(why) => refuse(page, m, why, request.next),
        Ok(plan) => carry_out(page, settings, roll, debug, flags, m, request, plan),
    }
}
