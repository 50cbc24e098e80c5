// The search by tables that lead to the names of one length and one last byte: head, a place for each of these pairs; links, one for each entry. A place is
// counted from 1, and 0 is none: an `Option<u16>` has twice the bytes, and all of head is cleared for each list.
#![tactic(auto)]

pub mod names_in;
pub mod tables;

ghost use Rattle.std.specs.Prelude.{◌≡◌, ◌/◌, ◌<◌, length, leb};
ghost use Rattle.entries.specs.Entry.{count as count_of, entry_at};
ghost use Rattle.names.specs.Search.{lookup};
ghost use Rattle.name_index.specs.Chain.{key_in, key_of, LinkedIf, Cleared};

use entries::chain::place_in;
use entries::count;
use entries::length::{entry_length, name_length};
use names::{Lookup, no_name};
pub use names_in::NameIndex;
use tables::Tables;

// The chain of a length and a last byte.
fn key_in(n: usize, last: u8) -> usize
    ensures { (result ≡ key_in n last) × (result < 8192) }
{
    n % 32 + 32 * usize::from(last)
}

// The chain of entry i.
fn entry_key(names: &[u8], i: usize) -> usize
    requires { i < length names.now / 32 }
    ensures { (result ≡ key_of (entry_at names.now i)) × (result < 8192) }
{
    let n = entry_length(names, i);
    if n == 0 {
        return 0;
    }
    key_in(n, names[i * 32 + (n - 1)])
}

// Fills the tables from the last entry on, so that every chain rises, and says whether they lead to each: where there are not too many.
pub fn index(names: &[u8], head: &mut [u16], links: &mut [u16]) -> bool
    requires { Cleared head.old × (length links.old ≡ 512) }
    ensures value { result ≡ leb (count_of names.now) 512 }
    ensures linked_if { LinkedIf result names.now head.new links.new }
{
    let n = count(names);
    if 512 < n {
        return false;
    }
    for i in (0..n).rev() {
        let key = entry_key(names, i);
        links[i] = head[key];
        head[key] = (i + 1) as u16;
    }
    true
}

// The entry that equals the name, which may end in NULs: the search goes along the chain of its length and last byte, compares the rest from the end on, and
// passes to the next entry at the first byte that differs. Document 01 names the form: a labelled loop, continued from the inner comparison.
pub fn find(tables: &Tables, name: &[u8]) -> Lookup
    ensures { result ≡ lookup tables.now.names.now name.now }
{
    if no_name(name) {
        return Lookup {
            bit: None,
            compared: 0,
        };
    }
    let Tables { names, head, links } = *tables;
    let n = name_length(name);
    let end = n - 1;
    let mut compared = 0;
    let mut p = place_in(head, key_in(n, name[end]));
    'entries: loop {
        if p == 0 {
            return Lookup {
                bit: None,
                compared,
            };
        }
        let i = p - 1;
        p = place_in(links, i);
        compared += 1;
        for j in (0..end).rev() {
            if names[i * 32 + j] != name[j] {
                continue 'entries;
            }
        }
        return Lookup {
            bit: Some(i),
            compared,
        };
    }
}
