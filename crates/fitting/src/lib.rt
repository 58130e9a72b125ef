// When a run state fits a plan.

#![tactic(auto)]

pub mod fits;
