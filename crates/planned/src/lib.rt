// The table as a plan (document 01): the test "is a plan", how many rows a plan has and what each takes from its
// task, of whatever holds the table; and a table in lent number lists.
#![tactic(auto)]

pub mod check;
pub mod lists;
pub mod rows;
