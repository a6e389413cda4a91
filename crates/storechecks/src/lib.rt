// Both stores at their boundaries, and through the same lists of edits. It uses rows, squares, stores and tables.
#![tactic(auto)]

#[cfg(test)]
mod both;
#[cfg(test)]
mod sizes;
