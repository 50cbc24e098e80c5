// The length of a name without the NULs behind it.
ghost use Rattle.std.specs.Prelude.{ℕ, ◌≡◌, ◌≢◌, ◌/◌, ◌<◌, length, slice_index, MatchOption};
ghost use Rattle.entries.specs.Entry.{entry_at};
ghost use Rattle.entries.specs.Length.{name_length};
ghost use Rattle.entries.specs.Bytes.{BytesIn};

use crate::same::eight;

// The bytes of a number up to the last that is not 0.
fn bytes_in(x: u64) -> usize
    ensures { BytesIn x result }
{
    (8 - x.leading_zeros() / 8) as usize
}

// The place of the last byte that is not NUL.
fn last_some(name: &[u8]) -> Option<usize>
    ensures { MatchOption result ((k : ℕ) → k < length name.now → slice_index name.now k ≡ 0) (λ i. (i < length name.now) × (slice_index name.now i ≢ 0) × ((k : ℕ) → i < k → k < length name.now → slice_index name.now k ≡ 0)) }
{
    name.iter().rposition(|byte| *byte != 0)
}

// The length of a name that may end in NULs: the NULs are passed one by one, since there is one as a rule.
pub fn name_length(name: &[u8]) -> usize
    ensures { result ≡ name_length name.now }
{
    match last_some(name) {
        Some(last) => last + 1,
        None => 0,
    }
}

// The length of entry i's name: the NULs behind it are passed eight at a time.
pub fn entry_length(list: &[u8], i: usize) -> usize
    requires { i < length list.now / 32 }
    ensures { result ≡ name_length (entry_at list.now i) }
{
    let at = i * 32;
    let fourth = eight(list, at + 24);
    if fourth != 0 {
        return 24 + bytes_in(fourth);
    }
    let third = eight(list, at + 16);
    if third != 0 {
        return 16 + bytes_in(third);
    }
    let second = eight(list, at + 8);
    if second != 0 {
        return 8 + bytes_in(second);
    }
    bytes_in(eight(list, at))
}
