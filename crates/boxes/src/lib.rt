// The box that a call is given: the rules that it must keep.
#![tactic(auto)]

pub mod lists;
pub mod rule;
pub mod settings;

pub use rule::box_right;
pub use settings::{set_at, settings_right};

// The numbers that a call is given. The place is that of a dump: which port is next, or the port count for its end.
#[derive(Clone, Copy)]
pub struct Call {
    pub family: u32,
    pub admin: u32,
    pub position: usize,
    pub place: usize,
}
