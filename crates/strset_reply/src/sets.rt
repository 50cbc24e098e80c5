// STRINGSETS: a nest with one STRINGSET for each set that is asked for.
ghost use Rattle.std.specs.Prelude.{◌≡◌, ◌+◌, ◌≤◌, length};
ghost use Rattle.entries.specs.Entry.{count as count_of};
ghost use Rattle.layout.specs.Layout.{names_of};
ghost use Rattle.page.specs.Page.{Wrote};
ghost use Rattle.netlink_write.specs.Attributes.{nest};
ghost use Rattle.strset_reply.specs.Sets.{strings_if, set_contents, string_set, other_set, sets_bytes};

use crate::strings::put_strings_nest;
use entries::count;
use layout::{Set, names_of};
use netlink_write::attributes::{close_nest, put_number};
use strset_request::list::Sets;
use strset_request::set::id_of;

const STRINGSET: u16 = 1;

const ID: u16 = 1;

const COUNT: u16 = 2;

const STRINGSETS: u16 = 2;

// STRINGS, unless the count alone is asked for.
fn put_strings_if(page: &mut [u8], counts: bool, names: &[u8]) -> usize
    requires { (count_of names.now ≤ 512) × (length (strings_if counts names.now) ≤ length page.old) }
    ensures { Wrote (strings_if counts names.now) page.old page.new result }
{
    if counts {
        return 0;
    }
    put_strings_nest(page, names)
}

// What a STRINGSET holds.
fn put_set_contents(page: &mut [u8], counts: bool, id: u32, names: &[u8]) -> usize
    requires { (count_of names.now ≤ 512) × (length (set_contents counts id names.now) ≤ length page.old) }
    ensures { Wrote (set_contents counts id names.now) page.old page.new result }
{
    put_number(page, ID, id);
    put_number(&mut page[8..], COUNT, count(names) as u32);
    let strings = put_strings_if(&mut page[16..], counts, names);
    strings + 16
}

// The STRINGSET of a set.
fn put_string_set<'a>(
    page: &mut [u8],
    counts: bool,
    debug: &'a [u8],
    flags: &'a [u8],
    set: Set,
) -> usize
    requires { (count_of debug.now ≤ 512) × (count_of flags.now ≤ 512) × (length (string_set counts (names_of debug.now flags.now) set) ≤ length page.old) }
    ensures { Wrote (string_set counts (names_of debug.now flags.now) set) page.old page.new result }
{
    let names = names_of(set, debug, flags);
    let contents = put_set_contents(&mut page[4..], counts, id_of(set), names);
    close_nest(page, STRINGSET, contents).bytes()
}

pub fn other_set(set: Set) -> Set
    ensures { result ≡ other_set set }
{
    match set {
        Set::Debug => Set::Flags,
        Set::Flags => Set::Debug,
    }
}

// The STRINGSETs of the sets.
fn put_sets<'a>(
    page: &mut [u8],
    counts: bool,
    debug: &'a [u8],
    flags: &'a [u8],
    sets: Sets,
) -> usize
    requires { (count_of debug.now ≤ 512) × (count_of flags.now ≤ 512) × (length (sets_bytes counts (names_of debug.now flags.now) sets) ≤ length page.old) }
    ensures { Wrote (sets_bytes counts (names_of debug.now flags.now) sets) page.old page.new result }
{
    match sets {
        Sets::Nothing => {
            return 0;
        }
        Sets::One(set) => {
            return put_string_set(page, counts, debug, flags, set);
        }
        Sets::Both(first) => {
            let one = put_string_set(page, counts, debug, flags, first);
            let two = put_string_set(&mut page[one..], counts, debug, flags, other_set(first));
            return one + two;
        }
    }
}

// The nest of them.
pub fn put_sets_nest<'a>(
    page: &mut [u8],
    counts: bool,
    debug: &'a [u8],
    flags: &'a [u8],
    sets: Sets,
) -> usize
    requires { (count_of debug.now ≤ 512) × (count_of flags.now ≤ 512) × (length (sets_bytes counts (names_of debug.now flags.now) sets) + 4 ≤ length page.old) }
    ensures { Wrote (nest 2 (sets_bytes counts (names_of debug.now flags.now) sets)) page.old page.new result }
{
    let contents = put_sets(&mut page[4..], counts, debug, flags, sets);
    close_nest(page, STRINGSETS, contents).bytes()
}
