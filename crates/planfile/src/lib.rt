// The plan file (document 01, "The plan on paper"): reading and writing, each of which undoes the other.
#![tactic(auto)]

mod due;
pub mod lists;
pub mod read;
pub mod write;
