// The plan on paper (document 01): the ranges by key; the refusals with their numbers and places; the deadline in force of
// a task; and what any holder of a table gives. What a table and its rows are stands in specs/.
#![tactic(auto)]

pub mod deadline;
pub mod keys;
pub mod limits;
pub mod ranges;
pub mod refusal;
pub mod view;
