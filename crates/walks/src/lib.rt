#![tactic(auto)]

pub mod arcs;
pub mod laws;
pub mod walker;
mod walking;
