//! Keys and their spelling, and the store of pages and nodes in which everything of the machine stands.
#![tactic(auto)]

mod key;
mod store;

pub use key::{Key, NodeId, PageId, bytes_of, key_of};
pub use store::{Counts, Store};
