// The longest right beginning of a roll and of a name list. A rule is asked of every beginning that can keep it, from the longest downwards.
ghost use Rattle.std.specs.Prelude.{◌≡◌, min};
ghost use Rattle.names.specs.Rule.{names_right};
ghost use Rattle.roll_rule.specs.Rule.{roll_right};
ghost use Rattle.box_fault.specs.Longest.{right_up_to};

use names::names_right;
use roll::record::MOST_BYTES;
use roll::table::{PORTS, read_ports};
use roll_rule::roll_right;

// The most bytes of a right roll, and of a right name list.
const ROLL: usize = PORTS * MOST_BYTES;

const NAMES: usize = 512 * 32;

// The smaller of two lengths.
fn smaller(a: usize, b: usize) -> usize
    ensures { result ≡ min a b }
{
    if a < b {
        return a;
    }
    b
}

// Whether a roll keeps its rule.
fn roll_keeps(roll: &[u8]) -> bool
    ensures { result ≡ roll_right roll.now }
{
    let mut table = [0u64; PORTS];
    let count = read_ports(roll, &mut table);
    roll_right(roll, &table[..count])
}

// How many bytes of a roll are right by themselves.
pub fn right_roll(roll: &[u8]) -> usize
    ensures { result ≡ right_up_to roll_right roll.now }
{
    let mut n = smaller(roll.len(), ROLL);
    while 0 < n {
        if roll_keeps(&roll[..n]) {
            return n;
        }
        n -= 1;
    }
    0
}

// How many bytes of a name list are right by themselves: whole entries, so that no other beginning is asked.
pub fn right_names(list: &[u8]) -> usize
    ensures { result ≡ right_up_to names_right list.now }
{
    let mut n = smaller(list.len(), NAMES) / 32;
    while 0 < n {
        let end = n * 32;
        if names_right(&list[..end]) {
            return end;
        }
        n -= 1;
    }
    0
}
