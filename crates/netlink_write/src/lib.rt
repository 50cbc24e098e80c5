// Writing netlink. Each function writes at the front of the page that it is lent, and leaves the rest of the page as it was.
#![tactic(auto)]

pub mod attributes;
pub mod exact_name;
pub mod headers;
mod padded_name;
