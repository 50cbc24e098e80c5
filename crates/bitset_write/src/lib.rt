// Writers of a bitset's attributes. Each writes at the front of the page that it is lent.
#![tactic(auto)]

pub mod bitmap;
pub mod form;
