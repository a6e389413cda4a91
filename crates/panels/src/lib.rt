// From the bytes of an export to its tables: lines, frames and the steps that they ask for. It uses exports, frames, digits and tables.
#![tactic(auto)]

pub mod bytes;
pub mod feed;
pub mod hold;
pub mod intake;
pub mod line;
pub mod session;
mod take;
