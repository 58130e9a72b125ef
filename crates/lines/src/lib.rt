// One line of a plan file (document 01, "The plan on paper"): the words of the keys, and the value that a line holds.
#![tactic(auto)]

pub mod line;
pub mod words;
