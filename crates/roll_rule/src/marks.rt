// Whether many ports are distinct, in time linear in their number where the marks spread them.
ghost use Rattle.std.specs.Prelude.{◌≡◌, ◌<◌, ◌+◌, length, set};
ghost use Rattle.roll.specs.Record.{port_count};
ghost use Rattle.roll_rule.specs.Rule.{is_new, ports_distinct};
ghost use Rattle.roll_rule.specs.Marks.{index_mark, name_mark, mark_of_index, mark_of_name, Marked};

use crate::distinct::is_new;
use numbers::{four, wide64};
use roll::Roll;

// The mark of an index.
fn index_mark(number: u32) -> usize
    ensures { (result ≡ index_mark number) × (result < 1024) }
{
    (number % 1024) as usize
}

// The mark of a name.
fn name_mark(field: &[u8]) -> usize
    requires { length field.now ≡ 16 }
    ensures { (result ≡ name_mark field.now) × (result < 1024) }
{
    let a = wide64(four(field, 0));
    let b = wide64(four(field, 4));
    let c = wide64(four(field, 8));
    let d = wide64(four(field, 12));
    ((a * 483130339 + b * 407823575 + c * 476453121 + d * 347328907) / 4194304 % 1024) as usize
}

// The marks of the port at a position.
fn mark_of_index(roll: &Roll, k: usize) -> usize
    requires { k < port_count roll.now }
    ensures { (result ≡ mark_of_index roll.now k) × (result < 1024) }
{
    index_mark(roll.index_of(k))
}

fn mark_of_name(roll: &Roll, k: usize) -> usize
    requires { k < port_count roll.now }
    ensures { (result ≡ mark_of_name roll.now k) × (result < 1024) }
{
    name_mark(roll.name_of(k))
}

// Sets a mark.
fn mark(table: &mut [u8], m: usize)
    requires { m < length table.old }
    ensures { table.new ≡ set table.old m 1 }
{
    table[m] = 1;
}

// Whether each port before the port at k is another, where the marks of those are set: it is so where neither of its own is.
fn is_new_by(roll: &Roll, k: usize, i: usize, n: usize, indexes: &[u8], names: &[u8]) -> bool
    requires k_in_bounds { k < port_count roll.now }
    requires i_value { (i ≡ mark_of_index roll.now k) × (i < 1024) × (n ≡ mark_of_name roll.now k) × (n < 1024) }
    requires marked { Marked (mark_of_index roll.now) k indexes.now }
    requires marked_2 { Marked (mark_of_name roll.now) k names.now }
    ensures { result ≡ is_new roll.now k }
{
    if indexes[i] == 0 {
        if names[n] == 0 {
            return true;
        }
    }
    is_new(roll, k)
}

// The same, and sets its marks too.
fn take(roll: &Roll, k: usize, indexes: &mut [u8], names: &mut [u8]) -> bool
    requires k_in_bounds { k < port_count roll.now }
    requires marked { Marked (mark_of_index roll.now) k indexes.old }
    requires marked_2 { Marked (mark_of_name roll.now) k names.old }
    ensures value { result ≡ is_new roll.now k }
    ensures marked_3 { Marked (mark_of_index roll.now) (k + 1) indexes.new }
    ensures marked_4 { Marked (mark_of_name roll.now) (k + 1) names.new }
{
    let i = mark_of_index(roll, k);
    let n = mark_of_name(roll, k);
    let new = is_new_by(roll, k, i, n, indexes, names);
    mark(indexes, i);
    mark(names, n);
    new
}

// Whether no two ports are alike, by marks, none of which is set yet.
fn distinct_by(roll: &Roll, indexes: &mut [u8], names: &mut [u8]) -> bool
    requires marked { Marked (mark_of_index roll.now) 0 indexes.old }
    requires marked_2 { Marked (mark_of_name roll.now) 0 names.old }
    ensures { result ≡ ports_distinct roll.now }
{
    for k in 0..roll.count() {
        if !take(roll, k, indexes, names) {
            return false;
        }
    }
    true
}

// Whether no two of many ports are alike.
pub fn many_distinct(roll: &Roll) -> bool
    ensures { result ≡ ports_distinct roll.now }
{
    let mut indexes = [0u8; 1024];
    let mut names = [0u8; 1024];
    distinct_by(roll, &mut indexes, &mut names)
}
