// The report of an export, as a person reads it. It uses panels, exports, frames and tables. What it prints is tested, not proved.
#![tactic(auto)]

pub mod modules;
pub mod report;
pub mod words;
