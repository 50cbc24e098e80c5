// The names that a search goes through, with tables or without.
ghost use Rattle.std.specs.Prelude.{◌≡◌};
ghost use Rattle.names.specs.Search.{lookup};
ghost use Rattle.name_index.specs.Chain.{LinkedIf};
ghost use Rattle.name_index.specs.NamesIn.{names_in};

use crate::find;
use crate::tables::Tables;
use names::{Lookup, find_name};

// A list by itself, or with tables that lead to each of its names.
#[derive(Clone, Copy)]
pub enum NameIndex<'a> {
    Bare(&'a [u8]),
    Linked(Tables<'a>),
}

impl<'a> NameIndex<'a> {
    // A list by itself.
    pub fn bare(names: &'a [u8]) -> NameIndex<'a>
        ensures { names_in result ≡ names.now }
    {
        NameIndex::Bare(names)
    }

    // A list with its tables, where `index` says that they lead to each name.
    pub fn with_tables(
        names: &'a [u8],
        indexed: bool,
        head: &'a [u16],
        links: &'a [u16],
    ) -> NameIndex<'a>
        requires { LinkedIf indexed names.now head.now links.now }
        ensures { names_in result ≡ names.now }
    {
        if indexed {
            return NameIndex::Linked(Tables { names, head, links });
        }
        NameIndex::bare(names)
    }

    // The list by itself.
    pub fn list(&self) -> &'a [u8]
        ensures { result.now ≡ names_in self.now }
    {
        match self {
            NameIndex::Bare(list) => list,
            NameIndex::Linked(tables) => tables.names,
        }
    }

    // The entry that equals the name, by the tables where there are any.
    pub fn look_up(&self, name: &[u8]) -> Lookup
        ensures { result ≡ lookup (names_in self.now) name.now }
    {
        match self {
            NameIndex::Bare(list) => find_name(list, name),
            NameIndex::Linked(tables) => find(tables, name),
        }
    }
}
