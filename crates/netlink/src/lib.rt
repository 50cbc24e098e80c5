// Reading netlink: the walk of a parent under a policy.
#![tactic(auto)]

pub mod policy;
pub mod walk;
