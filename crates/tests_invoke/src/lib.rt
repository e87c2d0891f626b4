//! Tests of invocations: the first domain of a machine calls, its call is answered once, and processes are parked and woken.
#![tactic(auto)]

mod answering;
mod caller;
#[cfg(test)]
mod calling;
mod people;
#[cfg(test)]
mod waking;

pub use answering::serve;
pub use caller::{DIRECTORIES, SLOT, first_caller};
pub use people::{park_one, parked, populate, wake_all, wake_one};
