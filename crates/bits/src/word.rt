// One word of a set.
ghost use Rattle.std.specs.Prelude.{◌≡◌, ◌&&◌, ◌+◌, ◌*◌};
ghost use Rattle.bits.specs.Bit.{test, number};
ghost use Rattle.bits.specs.Set.{word_of, all_below};
ghost use Rattle.bits.specs.Between.{bit_between};
ghost use Rattle.bits.specs.Change.{merge};

// The word that a masked change makes of `word`: the bits in `mask` take `value`'s bits.
pub fn merge_word(mask: u32, value: u32, word: u32) -> u32
    ensures { result ≡ number 32 (merge (test mask) (test value) (test word)) }
{
    (word & !mask) | (value & mask)
}

// Word j of the set of all bits below n.
pub fn below(n: usize, j: usize) -> u32
    ensures { result ≡ word_of (all_below n) j }
{
    let whole = n / 32;
    if j < whole {
        return 0xffffffff;
    }
    if whole < j {
        return 0;
    }
    let rest = (n % 32) as u32;
    (1u32 << rest) - 1
}

// The bits of word j that are below n.
pub fn cut_word(word: u32, n: usize, j: usize) -> u32
    ensures { result ≡ number 32 (λ b. test word b && all_below n (j * 32 + b)) }
{
    word & below(n, j)
}

// Whether word j has a bit i with n <= i < size.
pub fn bit_between(word: u32, j: usize, n: usize, size: usize) -> bool
    ensures { result ≡ bit_between word j n size }
{
    let cut = cut_word(word, size, j);
    cut != cut_word(cut, n, j)
}
