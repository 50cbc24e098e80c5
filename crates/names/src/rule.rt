// The rule of a name list.
ghost use Rattle.std.specs.Prelude.{◌≡◌};
ghost use Rattle.basics.specs.Scan.{all};
ghost use Rattle.entries.specs.Entry.{count};
ghost use Rattle.names.specs.Rule.{right_at, names_right};
ghost use Rattle.names.specs.Halves.{low_right, high_right};

use numbers::nuls::nul_pairs;

// Whether each NUL in the first half of each entry is followed by a NUL, and the last byte is NUL.
fn low_right(names: &[u8]) -> bool
    ensures { result ≡ all (count names.now) (low_right names.now) }
{
    for entry in names.as_chunks::<32>().0 {
        if entry[31] != 0 {
            return false;
        }
        if !nul_pairs(entry, 0, 16) {
            return false;
        }
    }
    true
}

// Whether it is so in the second half, which begins with the last byte of the first.
fn high_right(names: &[u8]) -> bool
    ensures { result ≡ all (count names.now) (high_right names.now) }
{
    for entry in names.as_chunks::<32>().0 {
        if !nul_pairs(entry, 15, 16) {
            return false;
        }
    }
    true
}

// Whether each entry is up to 31 bytes that are not NUL, then NULs only. Two loops cost half of one: what is known of a byte from the first half
// or from the entry's end would keep the compiler from comparing the second half's sixteen bytes at once.
#[tactic(auto, using(crate::proofs::Rules::entries_laws))]
fn entries_right(names: &[u8]) -> bool
    ensures { result ≡ all (count names.now) (right_at names.now) }
{
    if !low_right(names) {
        return false;
    }
    high_right(names)
}

// Whether a list breaks no rule.
#[tactic(auto, using(crate::proofs::Rules::names_laws))]
pub fn names_right(names: &[u8]) -> bool
    ensures { result ≡ names_right names.now }
{
    if names.len() % 32 != 0 {
        return false;
    }
    let n = names.len() / 32;
    if n < 1 {
        return false;
    }
    if 512 < n {
        return false;
    }
    if !entries_right(names) {
        return false;
    }
    entries::all_distinct(names)
}
