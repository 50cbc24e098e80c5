// Lists of 32-byte entries: how many, each of them, and whether they are distinct.
#![tactic(auto)]

pub mod chain;
pub mod length;
pub mod same;

ghost use Rattle.std.specs.Prelude.{◌≡◌};
ghost use Rattle.entries.specs.Entry.{count as count_of, entry_at};

pub use chain::all_distinct;

// The whole entries of a list.
pub fn count(list: &[u8]) -> usize
    ensures { result ≡ count_of list.now }
{
    list.len() / 32
}

// The bytes of entry i; none past the last entry.
pub fn entry(list: &[u8], i: usize) -> &[u8]
    ensures { result.now ≡ entry_at list.now i }
{
    if i < list.len() / 32 {
        let at = i * 32;
        let end = at + 32;
        return &list[at..end];
    }
    &list[..0]
}
