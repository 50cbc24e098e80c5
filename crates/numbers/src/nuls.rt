// NULs behind a name.
ghost use Rattle.std.specs.Prelude.{◌≡◌, ◌+◌, ◌<◌, length};
ghost use Rattle.basics.specs.Scan.{all};
ghost use Rattle.numbers.specs.Pairs.{pair_at};

// Whether each NUL among the n bytes from `at` on is followed by a NUL. No early exit: where n is known, all bytes are compared at once.
pub fn nul_pairs(s: &[u8], at: usize, n: usize) -> bool
    requires { at + n < length s.now }
    ensures { result ≡ all n (pair_at s.now at) }
{
    let firsts = &s[at..at + n];
    let seconds = &s[at + 1..at + n + 1];
    let mut right = true;
    for (first, second) in firsts.iter().zip(seconds) {
        right &= (*first != 0) | (*second == 0);
    }
    right
}
