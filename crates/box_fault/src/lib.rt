// Which part of a box breaks a rule first, and where.
#![tactic(auto)]

pub mod longest;
pub mod settings;

ghost use Rattle.std.specs.Prelude.{◌≡◌};
ghost use Rattle.boxes.specs.Box.{box_of};
ghost use Rattle.box_fault.specs.Settings.{fault_at};
ghost use Rattle.box_fault.specs.Fault.{part_number, box_fault};

use crate::longest::{right_names, right_roll};
use crate::settings::settings_fault;
use boxes::lists::sizes;
use names::names_right;
use roll::table::{PORTS, read_ports};
use roll_rule::roll_right;

// A part of a box.
#[derive(Clone, Copy)]
pub enum Part {
    Family,
    Admin,
    Roll,
    DebugNames,
    FlagNames,
    Settings,
}

impl Part {
    // Its number, in the order in which the parts are judged. A name says which number this is, where a `From` would not.
    pub fn number(self) -> u32
        ensures { result ≡ part_number self }
    {
        match self {
            Part::Family => 1,
            Part::Admin => 2,
            Part::Roll => 3,
            Part::DebugNames => 4,
            Part::FlagNames => 5,
            Part::Settings => 6,
        }
    }
}

// The part that breaks a rule first, and the offset in it.
#[derive(Clone, Copy)]
pub struct Fault {
    pub part: Part,
    pub offset: usize,
}

// A fault at an offset of a part.
fn fault_at(part: Part, offset: usize) -> Option<Fault>
    ensures { result ≡ fault_at part offset }
{
    Some(Fault { part, offset })
}

// Which part of a box breaks a rule first, and where; none where the box is sound. What is longer than a check of the box is done only for the part at fault.
pub fn box_fault(
    family: u32,
    admin: u32,
    roll: &[u8],
    debug: &[u8],
    flags: &[u8],
    settings: &[u8],
) -> Option<Fault>
    ensures { result ≡ box_fault family admin (box_of roll.now debug.now flags.now) settings.now }
{
    if family < 16 {
        return fault_at(Part::Family, 0);
    }
    if 65535 < family {
        return fault_at(Part::Family, 0);
    }
    if 1 < admin {
        return fault_at(Part::Admin, 0);
    }
    let mut table = [0u64; PORTS];
    let count = read_ports(roll, &mut table);
    let ports = &table[..count];
    if !roll_right(roll, ports) {
        return fault_at(Part::Roll, right_roll(roll));
    }
    if !names_right(debug) {
        return fault_at(Part::DebugNames, right_names(debug));
    }
    if !names_right(flags) {
        return fault_at(Part::FlagNames, right_names(flags));
    }
    settings_fault(settings, ports.len(), sizes(debug, flags))
}
