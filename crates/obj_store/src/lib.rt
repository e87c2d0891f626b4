//! The store in memory: all blocks of a machine, with a mark on each block that has changed.
#![tactic(auto)]

mod ram;

pub use kn_io::NoMemory;
pub use ram::RamStore;
