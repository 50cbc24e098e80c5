// The rule of a roll, over the table of its ports.
#![tactic(auto)]

pub mod distinct;
pub mod marks;

ghost use Rattle.std.specs.Prelude.{◌≡◌, length, ◌<◌};
ghost use Rattle.basics.specs.Scan.{all};
ghost use Rattle.roll.specs.Record.{port_count};
ghost use Rattle.roll.specs.Table.{Tabled, TableRead};
ghost use Rattle.roll_rule.specs.Rule.{port_right, roll_right};

use crate::distinct::few_distinct;
use crate::marks::many_distinct;
use roll::Roll;
use roll::name::name_right;

// So many ports are compared pair by pair sooner than by marks.
const FEW: usize = 3;

// Whether a port's index is 1 to 2,147,483,647 and its name is right.
fn port_right(roll: &Roll, k: usize) -> bool
    requires { k < port_count roll.now }
    ensures { result ≡ port_right roll.now k }
{
    let number = roll.index_of(k);
    if number < 1 {
        return false;
    }
    if 2147483647 < number {
        return false;
    }
    name_right(roll.name_of(k))
}

// Whether each port is so.
fn ports_right(roll: &Roll) -> bool
    ensures { result ≡ all (port_count roll.now) (port_right roll.now) }
{
    for k in 0..roll.count() {
        if !port_right(roll, k) {
            return false;
        }
    }
    true
}

// Whether a roll, of which this is the table, breaks no rule.
pub fn roll_right(roll: &[u8], ports: &[u64]) -> bool
    requires { TableRead roll.now ports.now }
    ensures { result ≡ roll_right roll.now }
{
    if ports.len() < 1 {
        return false;
    }
    let roll = &Roll::new(roll, ports);
    if !ports_right(roll) {
        return false;
    }
    if roll.count() <= FEW {
        return few_distinct(roll);
    }
    many_distinct(roll)
}
