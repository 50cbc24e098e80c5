// What stands at the top level of a request, and in its header.
ghost use Rattle.std.specs.Prelude.{◌≡◌};
ghost use Rattle.request.specs.Policies.{bitset_rule, top_policy, header_policy};

use netlink::policy::Rule;

// Types at the top level.
pub const HEADER: usize = 1;

pub const BITSET: usize = 2;

// Types in the header.
pub const INDEX: usize = 1;

pub const NAME: usize = 2;

pub const FLAGS: usize = 3;

// A bitset stands in a SET alone.
fn bitset_rule(change: bool) -> Rule
    ensures { result ≡ bitset_rule change }
{
    if change {
        return Rule::Nest;
    }
    Rule::Unlisted
}

pub fn top_policy(change: bool) -> [Rule; 8]
    ensures { result ≡ top_policy change }
{
    [
        Rule::Unlisted,
        Rule::Nest,
        bitset_rule(change),
        Rule::Unlisted,
        Rule::Unlisted,
        Rule::Unlisted,
        Rule::Unlisted,
        Rule::Unlisted,
    ]
}

pub fn header_policy() -> [Rule; 8]
    ensures { result ≡ header_policy }
{
    [
        Rule::Unlisted,
        Rule::Number,
        Rule::Name(16),
        Rule::Number,
        Rule::Unlisted,
        Rule::Unlisted,
        Rule::Unlisted,
        Rule::Unlisted,
    ]
}
