// A table by value: its counts and its columns, one for each number of a task or a row.

#![tactic(auto)]

pub mod columns;
