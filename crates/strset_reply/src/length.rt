// How long a reply is, told before anything is written.
ghost use Rattle.std.specs.Prelude.{◌≡◌, ◌+◌, ◌≤◌, length};
ghost use Rattle.entries.specs.Entry.{count as count_of};
ghost use Rattle.layout.specs.Layout.{names_of};
ghost use Rattle.strset_reply.specs.Strings.{string_bytes, strings_bytes};
ghost use Rattle.strset_reply.specs.Sets.{string_set, sets_bytes};
ghost use Rattle.strset_reply.specs.Message.{strset_content_of, port_nest, strset_attributes};

use crate::sets::other_set;
use entries::count;
use layout::{Set, names_of};
use netlink::policy::nul_at;
use netlink_headers::lengths::Stated;
use strset_request::list::Sets;

// The STRING of entry i: its nest's header, INDEX, and VALUE with its NUL and padding.
fn string_length(names: &[u8], i: usize) -> usize
    ensures value { result ≡ length (string_bytes names.now i) }
    ensures upper_bound { result ≤ 52 }
{
    let name = nul_at(entries::entry(names, i));
    let stated = name + 5;
    let value = Stated::of(stated as u32).step().bytes();
    value + 12
}

// The STRINGs of all entries.
fn strings_length(names: &[u8]) -> usize
    requires { count_of names.now ≤ 512 }
    ensures value { result ≡ length (strings_bytes names.now (count_of names.now)) }
    ensures upper_bound { result ≤ 26624 }
{
    let n = count(names);
    let mut all = 0;
    let mut i = 0;
    while i < n {
        all += string_length(names, i);
        i += 1;
    }
    all
}

// The STRINGSET of a set: its nest's header, ID, COUNT and, unless the count alone is asked for, STRINGS.
fn set_length<'a>(counts: bool, debug: &'a [u8], flags: &'a [u8], set: Set) -> usize
    requires { (count_of debug.now ≤ 512) × (count_of flags.now ≤ 512) }
    ensures value { result ≡ length (string_set counts (names_of debug.now flags.now) set) }
    ensures upper_bound { result ≤ 26648 }
{
    if counts {
        return 20;
    }
    strings_length(names_of(set, debug, flags)) + 24
}

// The STRINGSETs of the sets.
fn sets_length<'a>(counts: bool, debug: &'a [u8], flags: &'a [u8], sets: Sets) -> usize
    requires { (count_of debug.now ≤ 512) × (count_of flags.now ≤ 512) }
    ensures value { result ≡ length (sets_bytes counts (names_of debug.now flags.now) sets) }
    ensures upper_bound { result ≤ 53296 }
{
    match sets {
        Sets::Nothing => {
            return 0;
        }
        Sets::One(set) => {
            return set_length(counts, debug, flags, set);
        }
        Sets::Both(first) => {
            let one = set_length(counts, debug, flags, first);
            let two = set_length(counts, debug, flags, other_set(first));
            return one + two;
        }
    }
}

// The port's nest: its header and INDEX, and NAME where there is one.
fn port_length(named: bool, index: u32, name: &[u8]) -> usize
    requires { length name.now ≤ 16 }
    ensures value { result ≡ length (port_nest named index name.now) }
    ensures upper_bound { result ≤ 36 }
{
    if !named {
        return 0;
    }
    let n = nul_at(name);
    if n == 0 {
        return 12;
    }
    let stated = n + 5;
    let value = Stated::of(stated as u32).step().bytes();
    value + 12
}

// The whole reply.
pub fn reply_length<'a>(
    named: bool,
    index: u32,
    name: &[u8],
    counts: bool,
    debug: &'a [u8],
    flags: &'a [u8],
    sets: Sets,
) -> usize
    requires { (length name.now ≤ 16) × (count_of debug.now ≤ 512) × (count_of flags.now ≤ 512) }
    ensures value { result ≡ length (strset_attributes (strset_content_of named index name.now (names_of debug.now flags.now) sets counts)) + 20 }
    ensures upper_bound { result ≤ 53356 }
{
    let port = port_length(named, index, name);
    let all = sets_length(counts, debug, flags, sets);
    port + all + 24
}
