// The reply to STRSET_GET: how long it is, and its bytes. Each writer writes at the front of the page that it is lent, in no more room than it takes:
// a reply may fill the page.
#![tactic(auto)]

pub mod length;
pub mod message;
pub mod sets;
pub mod strings;
