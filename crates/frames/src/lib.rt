// The frames that a panel export is made of: reading a line, and where a reader stands. It uses digits and tables.
#![tactic(auto)]

mod fields;
pub mod frame;
mod line;
mod open;
pub mod read;
pub mod stage;
