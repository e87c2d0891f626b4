//! Migration: the blocks that were saved with a generation are copied home, some at a time.
#![tactic(auto)]

mod migrating;
mod moving;
mod rounds;
mod saving;

pub use disk_layout::{DiskFault, Position};
pub use migrating::some;
pub use rounds::{NoTurns, Turns, run};
pub use saving::save;
