// STRINGS: a nest with one STRING for each entry of a list.
ghost use Rattle.std.specs.Prelude.{◌≡◌, ◌+◌, ◌≤◌, ◌<◌, length};
ghost use Rattle.entries.specs.Entry.{count as count_of};
ghost use Rattle.page.specs.Page.{Wrote};
ghost use Rattle.netlink_write.specs.Attributes.{nest};
ghost use Rattle.strset_reply.specs.Strings.{index_and_value, string_bytes, strings_bytes};

use entries::count;
use netlink_write::attributes::{close_nest, put_number};
use netlink_write::exact_name::put_exact_name;

const STRING: u16 = 1;

const INDEX: u16 = 1;

const VALUE: u16 = 2;

const STRINGS: u16 = 3;

// What a STRING holds: its index and its name, which may be empty.
fn put_index_and_value(page: &mut [u8], index: u32, name: &[u8]) -> usize
    requires { (length name.now ≤ 256) × (length (index_and_value index name.now) ≤ length page.old) }
    ensures { Wrote (index_and_value index name.now) page.old page.new result }
{
    put_number(page, INDEX, index);
    let value = put_exact_name(&mut page[8..], VALUE, name);
    value + 8
}

// The STRING of entry i.
fn put_string(page: &mut [u8], names: &[u8], i: usize) -> usize
    requires { (i < 512) × (length (string_bytes names.now i) ≤ length page.old) }
    ensures { Wrote (string_bytes names.now i) page.old page.new result }
{
    let contents = put_index_and_value(&mut page[4..], i as u32, entries::entry(names, i));
    close_nest(page, STRING, contents).bytes()
}

// The STRINGs of all entries, rising.
fn put_strings(page: &mut [u8], names: &[u8]) -> usize
    requires { (count_of names.now ≤ 512) × (length (strings_bytes names.now (count_of names.now)) ≤ length page.old) }
    ensures { Wrote (strings_bytes names.now (count_of names.now)) page.old page.new result }
{
    let n = count(names);
    let mut at = 0;
    let mut i = 0;
    while i < n {
        at += put_string(&mut page[at..], names, i);
        i += 1;
    }
    at
}

// The nest of them.
pub fn put_strings_nest(page: &mut [u8], names: &[u8]) -> usize
    requires { (count_of names.now ≤ 512) × (length (strings_bytes names.now (count_of names.now)) + 4 ≤ length page.old) }
    ensures { Wrote (nest 3 (strings_bytes names.now (count_of names.now))) page.old page.new result }
{
    let contents = put_strings(&mut page[4..], names);
    close_nest(page, STRINGS, contents).bytes()
}
