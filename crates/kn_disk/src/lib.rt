//! Disks: what a read gives, and what a crash may leave.
#![tactic(auto)]

mod calls;
mod change;
mod disk;
mod file_disk;
mod fill;
mod history;
mod memory_disk;
mod replay;

pub use disk::Disk;
pub use file_disk::FileDisk;
pub use fill::Fill;
pub use kn_io::{Failed, NoMemory};
pub use memory_disk::MemoryDisk;
