// What a panel export holds: modules, import records, entries, listed modules and options, the included marks, and the refusals; and the numbers and the words of kinds. It uses no other crate.
#![tactic(auto)]

pub mod included;
pub mod index;
pub mod module;
mod numbers;
pub mod read;
pub mod refusal;
pub mod table;
mod words;
