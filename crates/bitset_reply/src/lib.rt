// The bitset of a reply. Each function writes at the front of the page that it is lent.
#![tactic(auto)]

pub mod list;
pub mod set;
