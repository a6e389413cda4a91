// A panel export built step by step within its limits, and its check. It uses tables.
#![tactic(auto)]

mod add;
mod check;
pub mod export;
mod limits;
mod names;
pub mod steps;
