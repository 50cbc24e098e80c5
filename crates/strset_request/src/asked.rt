// What a STRSET_GET asks for, from its top level down.
ghost use Rattle.std.specs.Prelude.{◌≡◌};
ghost use Rattle.strset_request.specs.Asked.{or_default, sets_asked, on_target, asked_of};
ghost use Rattle.request.specs.Optional.{optional_target_of};

use crate::list::{Sets, judge_list};
use crate::top::{StrsetParts, read_strset_top};
use layout::Set;
use refusal::Refusal;
use request::optional::read_optional_target;
use request::target::Addressee;
use roll::Roll;

// The port that is named, if any; the sets in order; whether their counts alone are asked for.
#[derive(Clone, Copy)]
pub struct Asked {
    pub port: Option<usize>,
    pub sets: Sets,
    pub counts: bool,
}

// The sets that are listed; where none is, the flags if a port is named, else the debug names.
fn or_default(sets: Sets, named: bool) -> Sets
    ensures { result ≡ or_default sets named }
{
    match sets {
        Sets::Nothing => {
            if named {
                return Sets::One(Set::Flags);
            }
            Sets::One(Set::Debug)
        }
        Sets::One(set) => Sets::One(set),
        Sets::Both(first) => Sets::Both(first),
    }
}

// STRINGSETS, for a port or for none.
fn ask_sets(m: &[u8], parts: StrsetParts, port: Option<usize>) -> Result<Asked, Refusal>
    ensures { result ≡ sets_asked m.now parts port }
{
    let named = port.is_some();
    let sets = judge_list(m, parts.sets, named)?;
    Ok(Asked {
        port,
        sets: or_default(sets, named),
        counts: parts.counts.present,
    })
}

// The header level, then STRINGSETS.
fn ask_header(m: &[u8], parts: StrsetParts, roll: &Roll) -> Result<Asked, Refusal>
    ensures { result ≡ on_target (optional_target_of m.now parts.header roll.now) (sets_asked m.now parts) }
{
    let header = parts.header;
    match read_optional_target(m, header, roll)? {
        Addressee::Unnamed(_) => ask_sets(m, parts, None),
        Addressee::Port(target) => ask_sets(m, parts, Some(target.position)),
    }
}

// The top level of a STRSET_GET, then the levels below it.
pub fn read_asked(m: &[u8], roll: &Roll) -> Result<Asked, Refusal>
    ensures { result ≡ asked_of m.now roll.now }
{
    let parts = read_strset_top(m)?;
    ask_header(m, parts, roll)
}
