// What stands at the top level of a STRSET_GET, in STRINGSETS and in a STRINGSET.
ghost use Rattle.std.specs.Prelude.{◌≡◌};
ghost use Rattle.strset_request.specs.Policies.{strset_policy, string_sets_policy, string_set_policy};

use netlink::policy::Rule;

// Types at the top level.
pub const HEADER: usize = 1;

pub const STRINGSETS: usize = 2;

pub const COUNTS_ONLY: usize = 3;

// The type in a STRINGSET.
pub const ID: usize = 1;

pub fn strset_policy() -> [Rule; 8]
    ensures { result ≡ strset_policy }
{
    [
        Rule::Unlisted,
        Rule::Nest,
        Rule::Nest,
        Rule::Flag,
        Rule::Unlisted,
        Rule::Unlisted,
        Rule::Unlisted,
        Rule::Unlisted,
    ]
}

pub fn string_sets_policy() -> [Rule; 8]
    ensures { result ≡ string_sets_policy }
{
    [
        Rule::Unlisted,
        Rule::Nest,
        Rule::Unlisted,
        Rule::Unlisted,
        Rule::Unlisted,
        Rule::Unlisted,
        Rule::Unlisted,
        Rule::Unlisted,
    ]
}

pub fn string_set_policy() -> [Rule; 8]
    ensures { result ≡ string_set_policy }
{
    [
        Rule::Unlisted,
        Rule::Number,
        Rule::Unlisted,
        Rule::Unlisted,
        Rule::Unlisted,
        Rule::Unlisted,
        Rule::Unlisted,
        Rule::Unlisted,
    ]
}
