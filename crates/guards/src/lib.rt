// The guards (document 01, "Guards"): the run state, what holds one, and a plan's rows as the calls read them. The definitions of every
// call are here too.

#![tactic(auto)]

pub mod lists;
pub mod rows;
pub mod run;
pub mod state;
