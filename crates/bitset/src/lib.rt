// An ethtool bitset: its contents judged, and brought to one form.
#![tactic(auto)]

pub mod judge;
