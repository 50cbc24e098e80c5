// What stands in a bitset, in its BITS and in a BIT.
ghost use Rattle.std.specs.Prelude.{◌≡◌};
ghost use Rattle.bitset_form.specs.Policies.{bitset_policy, bits_policy};

use netlink::policy::Rule;

// Types in a bitset.
pub const NOMASK: usize = 1;

pub const SIZE: usize = 2;

pub const BITS: usize = 3;

pub const VALUE: usize = 4;

pub const MASK: usize = 5;

// Types in a BIT; the last is its VALUE flag.
pub const INDEX: usize = 1;

pub const NAME: usize = 2;

pub const ON: usize = 3;

pub fn bitset_policy() -> [Rule; 8]
    ensures { result ≡ bitset_policy }
{
    [
        Rule::Unlisted,
        Rule::Flag,
        Rule::Number,
        Rule::Nest,
        Rule::Bytes,
        Rule::Bytes,
        Rule::Unlisted,
        Rule::Unlisted,
    ]
}

pub fn bits_policy() -> [Rule; 8]
    ensures { result ≡ bits_policy }
{
    [
        Rule::Unlisted,
        Rule::Nest,
        Rule::Unlisted,
        Rule::Unlisted,
        Rule::Unlisted,
        Rule::Unlisted,
        Rule::Unlisted,
        Rule::Unlisted,
    ]
}
