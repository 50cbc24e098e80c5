// The settings of one set of one port, changed word by word.
ghost use Rattle.std.specs.Prelude.{◌≡◌, ◌+◌, ◌≤◌, length, take, drop};
ghost use Rattle.basics.specs.Put.{splice};
ghost use Rattle.bits.specs.Set.{has, words_of};
ghost use Rattle.bits.specs.Change.{merge};

// The w words from `at` on take the value's bits where the mask has them.
pub fn apply(settings: &mut [u32], at: usize, w: usize, mask: [u32; 16], value: [u32; 16])
    requires { (w ≤ 16) × (at + w ≤ length settings.old) }
    ensures { settings.new ≡ splice at settings.old (words_of w (merge (has (take w mask)) (has (take w value)) (has (take w (drop at settings.old))))) }
{
    bits::merge_at(settings, at, &mask[..w], &value[..w]);
}
