// STRINGSETS: any number of STRINGSETs, each of which asks for a set.
ghost use Rattle.std.specs.Prelude.{◌≡◌};
ghost use Rattle.netlink_attributes.specs.Attributes.{attributes};
ghost use Rattle.strset_request.specs.List.{with_asked, sets_reading, nest_reading, list_reading};
ghost use Rattle.strset_request.specs.declared.list.Sets.TheVariants as S;

use crate::policies::string_sets_policy;
use crate::set::judge_set;
use layout::Set;
use netlink::walk::{Slot, Stop, walk};
use netlink_attributes::{AttributeRead, payload, read_attribute};
use refusal::{Refusal, of_fault};

// The sets that are asked for, each once, in the order in which they are told.
#[derive(Clone, Copy)]
pub enum Sets {
    Nothing,
    One(Set),
    // This one, then the other.
    Both(Set),
}

// The sets with one more, unless it stands among them.
fn with_asked(sets: Sets, set: Set) -> Sets
    ensures { result ≡ with_asked sets set }
{
    match sets {
        Sets::Nothing => Sets::One(set),
        Sets::One(first) => {
            if first == set {
                return Sets::One(first);
            }
            Sets::Both(first)
        }
        Sets::Both(first) => Sets::Both(first),
    }
}

// Judges each STRINGSET in turn, and notes its set.
fn judge_sets(s: &[u8], from: usize, named: bool) -> Result<Sets, Refusal>
    ensures { result ≡ sets_reading s.now named S.Nothing (attributes s.now from) }
{
    let mut sets = Sets::Nothing;
    let mut at = from;
    loop {
        match read_attribute(s, at) {
            AttributeRead::End => {
                return Ok(sets);
            }
            AttributeRead::Broken => {
                return Ok(sets);
            }
            AttributeRead::Attribute(x) => {
                let set = judge_set(payload(s, 0, x.end), x.start, named)?;
                sets = with_asked(sets, set);
                at = x.next;
            }
        }
    }
}

// STRINGSETS is walked whole before the first STRINGSET is opened, in the message cut at the nest's end.
fn judge_nest(m: &[u8], nest: Slot, named: bool) -> Result<Sets, Refusal>
    ensures { result ≡ nest_reading m.now nest named }
{
    let start = nest.start;
    let contents = payload(m, 0, nest.end);
    let walked = walk(string_sets_policy(), contents, start);
    let stop = walked.stop;
    if let Stop::At { fault, at } = stop {
        return Err(of_fault(fault, at));
    }
    judge_sets(contents, start, named)
}

// The sets that STRINGSETS lists, none where it is absent.
pub fn judge_list(m: &[u8], nest: Slot, named: bool) -> Result<Sets, Refusal>
    ensures { result ≡ list_reading m.now nest named }
{
    if nest.present {
        return judge_nest(m, nest, named);
    }
    Ok(Sets::Nothing)
}
