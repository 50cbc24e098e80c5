// The rules of the box, which every call checks.
ghost use Rattle.std.specs.Prelude.{◌≡◌};
ghost use Rattle.roll.specs.Table.{TableRead};
ghost use Rattle.boxes.specs.Box.{box_of, state_of};
ghost use Rattle.boxes.specs.Rule.{box_right};

use crate::Call;
use crate::lists::{lists_right, sizes};
use crate::settings::settings_right;

// Whether a box breaks no rule. The table is that of its roll.
pub fn box_right(
    call: Call,
    roll: &[u8],
    ports: &[u64],
    debug: &[u8],
    flags: &[u8],
    settings: &[u32],
) -> bool
    requires { TableRead roll.now ports.now }
    ensures { result ≡ box_right (box_of roll.now debug.now flags.now) (state_of settings.now) call }
{
    if call.family < 16 {
        return false;
    }
    if 65535 < call.family {
        return false;
    }
    if 1 < call.admin {
        return false;
    }
    if !roll_rule::roll_right(roll, ports) {
        return false;
    }
    if ports.len() < call.place {
        return false;
    }
    if !lists_right(debug, flags) {
        return false;
    }
    settings_right(settings, ports.len(), sizes(debug, flags))
}
