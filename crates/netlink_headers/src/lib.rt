// Netlink messages: their lengths, their headers, and the message at a position of a datagram.
#![tactic(auto)]

pub mod headers;
pub mod lengths;
pub mod messages;
