// The name of a port: a field of 16 bytes.
ghost use Rattle.std.specs.Prelude.{◌≡◌, eqb, ◌<◌};
ghost use Rattle.basics.specs.Nuls.{nul_then_nul};
ghost use Rattle.basics.specs.Numbers.{u32_at};
ghost use Rattle.roll.specs.Name.{name_at, same_name, holds_name, name_right};

use netlink_attributes::payload;
use numbers::{byte_at, u32_at};

// The 16 bytes at a place of the roll; none where they do not lie in it.
pub fn name_at(roll: &[u8], at: usize) -> &[u8]
    ensures { result.now ≡ name_at roll.now at }
{
    if roll.len() < 16 {
        return &roll[..0];
    }
    if roll.len() - 16 < at {
        return &roll[..0];
    }
    payload(roll, at, at + 16)
}

// Whether two names have the same four bytes at a place, NULs past the end of a name.
fn same_at(a: &[u8], b: &[u8], at: usize) -> bool
    ensures { result ≡ eqb (u32_at a.now at) (u32_at b.now at) }
{
    u32_at(a, at) == u32_at(b, at)
}

// Whether two fields hold the same name, four bytes at a time, those in which the names of one box differ first. NULs follow the shorter one.
pub fn same_name(a: &[u8], b: &[u8]) -> bool
    ensures { result ≡ same_name a.now b.now }
{
    if !same_at(a, b, 8) {
        return false;
    }
    if !same_at(a, b, 4) {
        return false;
    }
    if !same_at(a, b, 0) {
        return false;
    }
    same_at(a, b, 12)
}

// Whether a field holds the name, NULs after it.
pub fn holds_name(field: &[u8], name: &[u8]) -> bool
    ensures { result ≡ holds_name field.now name.now }
{
    if 16 < name.len() {
        return false;
    }
    same_name(field, name)
}

// Whether a NUL at j is followed by a NUL.
fn nul_then_nul(field: &[u8], j: usize) -> bool
    requires { j < 15 }
    ensures { result ≡ nul_then_nul field.now j }
{
    if byte_at(field, j) != 0 {
        return true;
    }
    byte_at(field, j + 1) == 0
}

// Whether a field is 1 to 15 bytes that are not NUL, then NULs only. Byte by byte: eight pairs compared at once take longer for so short a field.
pub fn name_right(field: &[u8]) -> bool
    ensures { result ≡ name_right field.now }
{
    if byte_at(field, 0) == 0 {
        return false;
    }
    if byte_at(field, 15) != 0 {
        return false;
    }
    for j in 0..15 {
        if !nul_then_nul(field, j) {
            return false;
        }
    }
    true
}
