// The normal form: SIZE, VALUE, MASK.
ghost use Rattle.std.specs.Prelude.{◌≡◌, ◌+◌, ◌*◌, ◌≤◌, length};
ghost use Rattle.page.specs.Page.{Wrote};
ghost use Rattle.bitset_write.specs.Form.{parts_bytes, form_bytes};

use crate::bitmap::put_bitmap;
use bitset_form::policies::{MASK, SIZE, VALUE};
use netlink_write::attributes::put_low_number;

// SIZE, then the words of VALUE, then those of MASK.
fn put_parts(page: &mut [u8], n: usize, value: &[u32], mask: &[u32]) -> usize
    requires { (length value.now ≤ 16) × (length mask.now ≤ 16) × (144 ≤ length page.old) }
    ensures wrote { Wrote (parts_bytes n value.now mask.now) page.old page.new result }
    ensures value { result ≡ (length value.now + length mask.now) * 4 + 16 }
{
    put_low_number(page, SIZE as u16, n);
    let values = put_bitmap(&mut page[8..], VALUE as u16, value);
    let at = 8 + values;
    let masks = put_bitmap(&mut page[at..], MASK as u16, mask);
    at + masks
}

// The form of a change of a set of n bits: as many words as the set has.
pub fn put_form(page: &mut [u8], n: usize, mask: [u32; 16], value: [u32; 16]) -> usize
    requires { (n ≤ 512) × (144 ≤ length page.old) }
    ensures wrote { Wrote (form_bytes n mask value) page.old page.new result }
    ensures upper_bound { result ≤ 144 }
{
    let w = bits::words_for(n);
    put_parts(page, n, &value[..w], &mask[..w])
}
