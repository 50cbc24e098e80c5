// Writing at the front of a page that is lent: little-endian numbers, and runs of bytes. The rest of the page stays as it was.
#![tactic(auto, unfolding(basics::specs::Put::put))]

pub mod bytes;

ghost use Rattle.std.specs.Prelude.{◌≡◌, ◌≤◌, length};
ghost use Rattle.basics.specs.Numbers.{le16, le32};
ghost use Rattle.basics.specs.Put.{put};

// A number of 16 bits: two bytes.
pub fn put_u16(page: &mut [u8], x: u16)
    requires { 2 ≤ length page.old }
    ensures { page.new ≡ put page.old (le16 x) }
{
    page[..2].copy_from_slice(&x.to_le_bytes());
}

// A number of 32 bits: four bytes. One line each, so that a trait of both sizes would be no plainer.
pub fn put_u32(page: &mut [u8], x: u32)
    requires { 4 ≤ length page.old }
    ensures { page.new ≡ put page.old (le32 x) }
{
    page[..4].copy_from_slice(&x.to_le_bytes());
}

// The low 32 bits of a number: four bytes.
pub fn put_low(page: &mut [u8], x: usize)
    requires { 4 ≤ length page.old }
    ensures { page.new ≡ put page.old (le32 x) }
{
    put_u32(page, (x % 4294967296) as u32);
}
