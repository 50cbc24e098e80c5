// The replies: a port and one of its sets. Each function writes at the front of the page that it is lent.
#![tactic(auto)]

pub mod message;
