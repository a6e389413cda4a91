// Which entries reach which modules: a table of sets, and walks along what a store says is loaded. It uses exports, sets, stores, tables and walks.
#![tactic(auto)]

mod columns;
mod concern;
pub mod data;
mod loads;
mod read;
mod renew;
mod reserve;
pub mod set_table;
