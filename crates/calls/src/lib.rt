// The calls on a state by value, and on one kept state that each updates, of whatever holds the table. The lists of a state have room for any
// plan's rows, so that none is refused as too short.

#![tactic(auto)]

pub mod arrive;
pub mod by_value;
pub mod fresh;
pub mod tick;
