// A bit name looked for by itself: the bit, and how many entries were compared.
#![tactic(auto)]

ghost use Rattle.std.specs.Prelude.{◌≡◌, cond};
ghost use Rattle.names.specs.Search.{not_sought, lookup};
ghost use Rattle.bit_name.specs.Find.{bare, searched};

use names::{Lookup, find_name, names_right};
use refusal::Refusal;

// The longest name without its NUL.
const LONGEST: usize = 31;

#[tactic(auto, unfolding(crate::specs::Find::bare))]
fn is_bare(name: &[u8]) -> bool
    ensures { result ≡ bare name.now }
{
    if LONGEST < name.len() {
        return false;
    }
    if name.len() == 0 {
        return false;
    }
    name[name.len() - 1] != 0
}

// The search for a name without its NUL.
fn find_bare(names: &[u8], name: &[u8]) -> Lookup
    ensures { result ≡ cond (bare name.now) (lookup names.now name.now) not_sought }
{
    if is_bare(name) {
        return find_name(names, name);
    }
    Lookup {
        bit: None,
        compared: 0,
    }
}

// Looks for a name in a list; a list that breaks a rule is refused.
#[tactic(auto, unfolding(crate::specs::Find::searched))]
pub fn find(names: &[u8], name: &[u8]) -> Result<Lookup, Refusal>
    ensures { result ≡ searched names.now name.now }
{
    if !names_right(names) {
        return Err(Refusal::Box);
    }
    Ok(find_bare(names, name))
}
