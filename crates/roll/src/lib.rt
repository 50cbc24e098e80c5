// The port roll: its records read once into a table of ports, and the port of an index or of a name.
#![tactic(auto)]

pub mod name;
pub mod record;
pub mod table;

pub use name::holds_name;
pub use table::{Roll, read_ports};
