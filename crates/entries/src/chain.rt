// Whether the entries are distinct, in time linear in the list where the hash spreads them. In its tables a place is counted from 1, and 0 is none: an
// `Option<u16>` has twice the bytes, and all are cleared for each list.
ghost use Rattle.std.specs.Prelude.{◌≡◌, ◌/◌, ◌≤◌, ◌<◌, length, get_or};
ghost use Rattle.basics.specs.Scan.{all};
ghost use Rattle.entries.specs.Entry.{entry_at, differs, entry_new, entries_distinct};
ghost use Rattle.entries.specs.Chain.{folded, spread, hash_of, last_of_hash, HeadRight, LinksRight, LinksClear};

use crate::same::{eight, same_entry};

// The place that a table holds at an index.
pub fn place_in(table: &[u16], i: usize) -> usize
    requires { i < length table.now }
    ensures { result ≡ get_or table.now i 0 }
{
    usize::from(table[i])
}

// Four numbers in one, each rotated by bits of its own.
#[tactic(auto, unfolding(crate::specs::Chain::folded))]
fn fold(a: u64, b: u64, c: u64, d: u64) -> u64
    ensures { result ≡ folded a b c d }
{
    a ^ b.rotate_left(44) ^ c.rotate_left(45) ^ d.rotate_left(16)
}

// A number spread over the chains.
#[tactic(auto, unfolding(crate::specs::Chain::spread))]
fn spread_of(x: u64) -> usize
    ensures { (result ≡ spread x) × (result < 1024) }
{
    ((x % 4294967296 * 1883130339 + x / 4294967296 * 1207823575) / 16777216 % 1024) as usize
}

// The chain of the four numbers of an entry.
fn chain_of(a: u64, b: u64, c: u64, d: u64) -> usize
    ensures { (result ≡ spread (folded a b c d)) × (result < 1024) }
{
    spread_of(fold(a, b, c, d))
}

// The chain of entry i: each of its bytes has a part in it.
fn hash(list: &[u8], i: usize) -> usize
    requires { i < length list.now / 32 }
    ensures { (result ≡ hash_of (entry_at list.now i)) × (result < 1024) }
{
    let at = i * 32;
    let a = eight(list, at);
    let b = eight(list, at + 8);
    let c = eight(list, at + 16);
    let d = eight(list, at + 24);
    chain_of(a, b, c, d)
}

// Whether entry i differs from every entry before it: only those of its chain are looked at.
fn chain_new(list: &[u8], links: &[u16], i: usize, start: usize) -> bool
    requires i_in_bounds { (i < length list.now / 32) × (i ≤ length links.now) }
    requires links_right { LinksRight list.now links.now i }
    requires start_value { start ≡ last_of_hash list.now (hash_of (entry_at list.now i)) i }
    ensures { result ≡ all i (differs list.now i) }
{
    let mut p = start;
    loop {
        if p == 0 {
            return true;
        }
        let j = p - 1;
        if same_entry(list, i, j) {
            return false;
        }
        p = place_in(links, j);
    }
}

// Whether entry i is empty or differs from every entry before it.
fn entry_new(list: &[u8], links: &[u16], i: usize, start: usize) -> bool
    requires i_in_bounds { (i < length list.now / 32) × (i ≤ length links.now) }
    requires links_right { LinksRight list.now links.now i }
    requires start_value { start ≡ last_of_hash list.now (hash_of (entry_at list.now i)) i }
    ensures { result ≡ entry_new list.now i }
{
    if list[i * 32] == 0 {
        return true;
    }
    chain_new(list, links, i, start)
}

// Whether the entries are distinct. The index of an entry goes into the tables. Room: `head`, a place for each chain; `links`, one for each entry, which stays 0 where it is the first of its chain.
fn distinct_in(list: &[u8], head: &mut [u16], links: &mut [u16]) -> bool
    requires head_len { (length head.old ≡ 1024) × (length links.old ≡ 512) × (length list.now / 32 ≤ 512) }
    requires head_right { HeadRight list.now head.old 0 × LinksClear links.old 0 }
    ensures { result ≡ entries_distinct list.now }
{
    'entries: for i in 0..list.len() / 32 {
        let h = hash(list, i);
        let start = head[h];
        head[h] = (i + 1) as u16;
        if start == 0 {
            continue 'entries;
        }
        if !entry_new(list, links, i, usize::from(start)) {
            return false;
        }
        links[i] = start;
    }
    true
}

// Whether the entries of a list of at most 512 are distinct, the empty ones aside.
pub fn all_distinct(list: &[u8]) -> bool
    requires { length list.now / 32 ≤ 512 }
    ensures { result ≡ entries_distinct list.now }
{
    let mut head = [0u16; 1024];
    let mut links = [0u16; 512];
    distinct_in(list, &mut head, &mut links)
}
