// BITS: a nest with one BIT for each bit that is listed.
ghost use Rattle.std.specs.Prelude.{◌+◌, ◌*◌, ◌≤◌, ◌<◌, length};
ghost use Rattle.bits.specs.Set.{has};
ghost use Rattle.page.specs.Page.{Wrote};
ghost use Rattle.netlink_write.specs.Attributes.{nest};
ghost use Rattle.bitset_reply.specs.List.{bit_in, bits_bytes};

use bitset_form::policies::BITS;
use index_name::put_index_nest;
use netlink_write::attributes::close_nest;

// The type of a BIT in BITS.
const BIT: u16 = 1;

// The BIT of bit i, INDEX and then NAME where the bit has one; nothing where the words do not hold the bit.
fn put_listed_bit(page: &mut [u8], names: &[u8], words: &[u32], i: usize) -> usize
    requires { (i < 512) × (52 ≤ length page.old) }
    ensures wrote { Wrote (bit_in names.now (has words.now) i) page.old page.new result }
    ensures upper_bound { result ≤ 52 }
{
    if !bits::test_bit(words, i) {
        return 0;
    }
    put_index_nest(page, BIT, i as u32, entries::entry(names, i))
}

// The BITs of the bits below n that the words hold, rising.
fn put_bits(page: &mut [u8], names: &[u8], words: &[u32], n: usize) -> usize
    requires { (n ≤ 512) × (n * 52 ≤ length page.old) }
    ensures wrote { Wrote (bits_bytes names.now (has words.now) n) page.old page.new result }
    ensures upper_bound { result ≤ n * 52 }
{
    let mut at = 0;
    let mut i = 0;
    while i < n {
        at += put_listed_bit(&mut page[at..], names, words, i);
        i += 1;
    }
    at
}

// The nest of them.
pub fn put_bits_nest(page: &mut [u8], names: &[u8], words: &[u32], n: usize) -> usize
    requires { (n ≤ 512) × (n * 52 + 4 ≤ length page.old) }
    ensures wrote { Wrote (nest 3 (bits_bytes names.now (has words.now) n)) page.old page.new result }
    ensures upper_bound { result ≤ n * 52 + 4 }
{
    let contents = put_bits(&mut page[4..], names, words, n);
    close_nest(page, BITS as u16, contents).bytes()
}
