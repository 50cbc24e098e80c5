// What a STRSET_GET asks for: which name lists, in which order, of which port. Each stage answers by value: what it read, or the refusal.
#![tactic(auto)]

pub mod asked;
pub mod list;
pub mod policies;
pub mod set;
pub mod top;
