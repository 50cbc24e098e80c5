// Lists of names, 32 bytes an entry: their rule, and the search for a name.
#![tactic(auto)]

pub mod pass;
pub mod rule;

ghost use Rattle.std.specs.Prelude.{◌≡◌};
ghost use Rattle.names.specs.Search.{no_name, lookup};

use entries::length::{entry_length, name_length};
pub use entries::{count, entry};
use numbers::byte_at;
use pass::next_with;
pub use rule::names_right;

// What a search found: the bit that the entry names, where there is one, and how many entries were compared with the name byte by byte.
#[derive(Clone, Copy)]
pub struct Lookup {
    pub bit: Option<usize>,
    pub compared: usize,
}

// Whether a name can stand in no list: it is empty, or longer than an entry.
pub fn no_name(name: &[u8]) -> bool
    ensures { result ≡ no_name name.now }
{
    if byte_at(name, 0) == 0 {
        return true;
    }
    32 < name.len()
}

// The entry that equals the name, which may end in NULs. Last byte and length are compared ahead of the rest, which is compared from the end on; the search
// passes to the next entry at the first byte that differs. Document 01 names the form: a labelled loop, continued from the inner comparison.
pub fn find_name(names: &[u8], name: &[u8]) -> Lookup
    ensures { result ≡ lookup names.now name.now }
{
    if no_name(name) {
        return Lookup {
            bit: None,
            compared: 0,
        };
    }
    let n = name_length(name);
    let end = n - 1;
    let mut compared = 0;
    let mut next = 0;
    'entries: loop {
        let i = next_with(names, end, name[end], next);
        if i == names.len() / 32 {
            return Lookup {
                bit: None,
                compared,
            };
        }
        next = i + 1;
        if entry_length(names, i) != n {
            continue 'entries;
        }
        compared += 1;
        for j in (0..end).rev() {
            if names[i * 32 + j] != name[j] {
                continue 'entries;
            }
        }
        return Lookup {
            bit: Some(i),
            compared,
        };
    }
}
