//! Checkpoints: a store is put on a disk, its marked blocks are saved as the next generation, and a machine is read back.
#![tactic(auto)]

mod area;
mod blanking;
mod fault;
mod formatting;
mod gate;
mod laying;
mod loading;
mod recovering;
mod saving;
mod sizes;

pub use disk_layout::{DiskFault, Position, present};
pub use fault::RecoverFault;
pub use formatting::format;
pub use recovering::recover;
pub use saving::commit;
pub use sizes::has_sizes;
