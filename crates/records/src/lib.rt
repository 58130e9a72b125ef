// A table whose tasks and rows are held as records in lent lists (document 01, "The plan on paper"): a view of it, and such lists taken apart
// into a table by value, and laid down from one.

#![tactic(auto)]

pub mod apart;
pub mod fill;
pub mod getters;
pub mod held;
