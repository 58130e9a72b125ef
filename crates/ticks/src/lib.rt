// The call tick (document 01, "Guards").

#![tactic(auto)]

mod done;
mod release;
mod running;
pub mod tick;
mod work;
