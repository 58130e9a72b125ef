// The calls fresh start and arrive, of whatever holds the table and the state.

#![tactic(auto)]

mod admit;
pub mod arrive;
pub mod fresh;
