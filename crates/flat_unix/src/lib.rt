//! The plain Unix machine: the flat machine of the definitions with all its calls, run as it is written there. The state,
//! the keeper and the servers are crates of their own; here are boot, turns and what can be seen of a machine.
#![tactic(auto)]

mod boot;
mod calls;
mod families;
mod flat;
mod steps;
mod texts;
mod transfers;
mod turning;
mod waiting;

pub use flat::{Flat, FlatFault};
