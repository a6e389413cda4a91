// A plan over any dependency store: which entries reach each module, kept through every edit. It uses exports, reach, sets, stores, tables and walks.
#![tactic(auto)]

pub mod plan;
