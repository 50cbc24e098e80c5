// Little-endian numbers in a slice. Past the end of the slice a byte counts as 0, so every position has an answer.
#![tactic(auto, unfolding(basics::specs::Numbers::byte_at, basics::specs::Numbers::u16_at, basics::specs::Numbers::u32_at))]

pub mod nuls;

ghost use Rattle.std.specs.Prelude.{◌≡◌, ◌+◌, ◌≤◌, ◌<◌, min, length};
ghost use Rattle.basics.specs.Numbers.{byte_at, u16_at, u32_at};

// The byte at a position.
pub fn byte_at(s: &[u8], at: usize) -> u8
    ensures { result ≡ byte_at s.now at }
{
    s.get(at).copied().unwrap_or(0)
}

// The two bytes at a position, lowest first.
pub fn u16_at(s: &[u8], at: usize) -> u16
    ensures { result ≡ u16_at s.now at }
{
    if s.len() <= at {
        return 0;
    }
    u16::from_le_bytes([s[at], byte_at(s, at + 1)])
}

// The four bytes at a position, lowest first.
pub fn u32_at(s: &[u8], at: usize) -> u32
    ensures { result ≡ u32_at s.now at }
{
    if s.len() <= at {
        return 0;
    }
    if s.len() - at < 4 {
        return u32_near_end(s, at);
    }
    four(s, at)
}

// The same where all four bytes are there.
pub fn four(s: &[u8], at: usize) -> u32
    requires { at + 4 ≤ length s.now }
    ensures { result ≡ u32_at s.now at }
{
    u32::from_le_bytes([s[at], s[at + 1], s[at + 2], s[at + 3]])
}

// The same where a byte may be missing.
fn u32_near_end(s: &[u8], at: usize) -> u32
    requires { at < length s.now }
    ensures { result ≡ u32_at s.now at }
{
    let b = byte_at(s, at + 1);
    let c = byte_at(s, at + 2);
    let d = byte_at(s, at + 3);
    u32::from_le_bytes([s[at], b, c, d])
}

// A position, at most the end: a step past the parent's end stops there.
pub fn capped(at: usize, end: usize) -> usize
    ensures { result ≡ min at end }
{
    at.min(end)
}

// A number of 32 bits as one of 64.
pub fn wide64(x: u32) -> u64
    ensures { (result ≡ x) × (result < 4294967296) }
{
    u64::from(x)
}
