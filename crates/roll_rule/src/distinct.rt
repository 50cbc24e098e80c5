// No two ports alike, port by port.
ghost use Rattle.std.specs.Prelude.{◌≡◌, length, ◌<◌};
ghost use Rattle.roll.specs.Record.{port_count};
ghost use Rattle.roll_rule.specs.Rule.{another, is_new, ports_distinct};

use roll::Roll;
use roll::name::same_name;

// Whether the port at j has another index and another name than those given.
fn is_another(roll: &Roll, number: u32, field: &[u8], j: usize) -> bool
    requires { j < port_count roll.now }
    ensures { result ≡ another roll.now number field.now j }
{
    if roll.index_of(j) == number {
        return false;
    }
    !same_name(roll.name_of(j), field)
}

// Whether each port before the port at k is another.
pub fn is_new(roll: &Roll, k: usize) -> bool
    requires { k < port_count roll.now }
    ensures { result ≡ is_new roll.now k }
{
    let number = roll.index_of(k);
    let field = roll.name_of(k);
    for j in 0..k {
        if !is_another(roll, number, field, j) {
            return false;
        }
    }
    true
}

// Whether no two of few ports are alike.
pub fn few_distinct(roll: &Roll) -> bool
    ensures { result ≡ ports_distinct roll.now }
{
    for k in 0..roll.count() {
        if !is_new(roll, k) {
            return false;
        }
    }
    true
}
