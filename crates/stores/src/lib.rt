// What a dependency store means, for every store, lists of edits put onto one, and the store in lent memory over any layout of rows. It uses tables.
#![tactic(auto)]

pub mod edit;
pub mod layout;
pub mod lent;
pub mod replay;
pub mod store;
