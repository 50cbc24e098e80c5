// The bytes of a name as an attribute holds them, found and written in one pass: words with no NUL are copied whole.
ghost use Rattle.std.specs.Prelude.{◌≡◌, ◌+◌, ◌≤◌, ◌<◌, cond, [], ◌∷◌, length, take, drop};
ghost use Rattle.basics.specs.Put.{put};
ghost use Rattle.netlink.specs.Policy.{nul_at};
ghost use Rattle.netlink_write.specs.PaddedName.{padded_word, padded_name, Copied};

use netlink::policy::{nul_at, some_nul};
use page::bytes::put_filled;

// A copy of N bytes of a name from `at` on. They go through an array, so that nobody asks whether page and name overlap.
#[tactic(auto, unfolding(basics::specs::Put::put))]
fn put_chunk<const N: usize>(page: &mut [u8], name: &[u8], at: usize)
    requires { (at + N ≤ length name.now) × (N ≤ length page.old) }
    ensures { page.new ≡ put page.old (take N (drop at name.now)) }
{
    let chunk: [u8; N] = *name[at..].first_chunk().unwrap();
    page[..N].copy_from_slice(&chunk);
}

// Copies a name eight bytes at a time while none of them is NUL. How many bytes are copied: the place, which serves both slices and is told, is counted by
// hand.
fn put_eights(page: &mut [u8], name: &[u8]) -> usize
    requires { length name.now ≤ length page.old }
    ensures { Copied name.now page.old page.new result }
{
    let mut at = 0;
    while 8 <= name.len() - at {
        if some_nul(name, at, 8) {
            return at;
        }
        put_chunk::<8>(&mut page[at..], name, at);
        at += 8;
    }
    at
}

// A byte, or NUL.
fn kept(keep: bool, b: u8) -> u8
    ensures { result ≡ cond keep b 0 }
{
    if keep { b } else { 0 }
}

// How many of three bytes stand before the first NUL.
fn nul_of(a: u8, b: u8, c: u8) -> usize
    ensures { result ≡ nul_at (a ∷ b ∷ c ∷ []) }
{
    if a == 0 {
        return 0;
    }
    if b == 0 {
        return 1;
    }
    if c == 0 {
        return 2;
    }
    3
}

// Those of three bytes before the first NUL, and NULs up to four. How many bytes stand before.
fn put_last(page: &mut [u8], a: u8, b: u8, c: u8) -> usize
    requires { 4 ≤ length page.old }
    ensures value { (result ≡ nul_at (a ∷ b ∷ c ∷ [])) × (result < 4) }
    ensures page_after { page.new ≡ put page.old (padded_word result (a ∷ b ∷ c ∷ [])) }
{
    let k = nul_of(a, b, c);
    page[0] = a;
    page[1] = kept(1 < k, b);
    page[2] = kept(2 < k, c);
    page[3] = 0;
    k
}

// The same of what is left of a name, fewer than four bytes.
fn put_few(page: &mut [u8], rest: &[u8]) -> usize
    requires { (length rest.now < 4) × (4 ≤ length page.old) }
    ensures value { (result ≡ nul_at rest.now) × (result < 4) }
    ensures page_after { page.new ≡ put page.old (padded_word result rest.now) }
{
    let k = nul_at(rest);
    put_filled(page, rest, k, 4);
    k
}

// A name's bytes before its first NUL, and NULs up to the step. How many bytes stand before the NUL.
pub fn put_padded_name(page: &mut [u8], name: &[u8]) -> usize
    requires { length name.now + 4 ≤ length page.old }
    ensures value { result ≡ nul_at name.now }
    ensures page_after { page.new ≡ put page.old (padded_name name.now) }
{
    // The place is counted as in `put_eights`.
    let mut at = put_eights(page, name);
    while 4 <= name.len() - at {
        if some_nul(name, at, 4) {
            let k = put_last(&mut page[at..], name[at], name[at + 1], name[at + 2]);
            return at + k;
        }
        put_chunk::<4>(&mut page[at..], name, at);
        at += 4;
    }
    let k = put_few(&mut page[at..], &name[at..]);
    at + k
}
