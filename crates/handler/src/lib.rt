// The handler: one message of a datagram answered, the settings kept.
#![tactic(auto)]

pub mod bytes;
pub mod call;
