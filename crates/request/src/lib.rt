// A request that is admitted, from its top level down to the port that it names. Each stage answers by value: what it read, or the refusal.
#![tactic(auto)]

pub mod header;
pub mod optional;
pub mod parts;
pub mod policies;
pub mod port;
pub mod target;
pub mod top;
