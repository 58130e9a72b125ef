// Reading a plan file to a table by value: a sheet.

#![tactic(auto)]

pub mod sheet;
