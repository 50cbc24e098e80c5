// A set under NOMASK: compact, or as the list of its bits.
ghost use Rattle.std.specs.Prelude.{◌≡◌, ◌+◌, ◌*◌, ◌≤◌, length};
ghost use Rattle.bits.specs.Set.{words_for};
ghost use Rattle.page.specs.Page.{Wrote};
ghost use Rattle.bitset_reply.specs.Set.{opening_bytes, compact_bytes, verbose_bytes, contents_bytes, set_bytes};

use crate::list::put_bits_nest;
use bitset_form::policies::{NOMASK, SIZE, VALUE};
use bitset_write::bitmap::put_bitmap;
use netlink_write::attributes::{close_nest, put_flag, put_low_number};

// The type of a bitset at the top level.
const BITSET: u16 = 2;

// What both forms begin with: NOMASK, then SIZE.
fn put_opening(page: &mut [u8], n: usize) -> usize
    requires { 12 ≤ length page.old }
    ensures wrote { Wrote (opening_bytes n) page.old page.new result }
    ensures value { result ≡ 12 }
{
    put_flag(page, NOMASK as u16);
    let size = put_low_number(&mut page[4..], SIZE as u16, n);
    4 + size
}

// The compact contents: the opening, and the words as VALUE.
pub fn put_compact(page: &mut [u8], words: &[u32], n: usize) -> usize
    requires { (length words.now ≡ words_for n) × (n ≤ 512) × (80 ≤ length page.old) }
    ensures wrote { Wrote (compact_bytes words.now n) page.old page.new result }
    ensures upper_bound { result ≤ 80 }
{
    put_opening(page, n);
    let value = put_bitmap(&mut page[12..], VALUE as u16, words);
    12 + value
}

// The verbose contents: the opening, and the set's bits as BITS.
pub fn put_verbose(page: &mut [u8], names: &[u8], words: &[u32], n: usize) -> usize
    requires { (n ≤ 512) × (n * 52 + 16 ≤ length page.old) }
    ensures wrote { Wrote (verbose_bytes names.now words.now n) page.old page.new result }
    ensures upper_bound { result ≤ n * 52 + 16 }
{
    put_opening(page, n);
    let bits = put_bits_nest(&mut page[12..], names, words, n);
    12 + bits
}

fn put_contents(page: &mut [u8], compact: bool, names: &[u8], words: &[u32], n: usize) -> usize
    requires { (length words.now ≡ words_for n) × (n ≤ 512) × (26640 ≤ length page.old) }
    ensures wrote { Wrote (contents_bytes compact names.now words.now n) page.old page.new result }
    ensures upper_bound { result ≤ 26640 }
{
    if compact {
        return put_compact(page, words, n);
    }
    put_verbose(page, names, words, n)
}

// The bitset nest, with the one or the other.
pub fn put_set(page: &mut [u8], compact: bool, names: &[u8], words: &[u32], n: usize) -> usize
    requires { (length words.now ≡ words_for n) × (n ≤ 512) × (26644 ≤ length page.old) }
    ensures wrote { Wrote (set_bytes compact names.now words.now n) page.old page.new result }
    ensures upper_bound { result ≤ 26644 }
{
    let contents = put_contents(&mut page[4..], compact, names, words, n);
    close_nest(page, BITSET, contents).bytes()
}
