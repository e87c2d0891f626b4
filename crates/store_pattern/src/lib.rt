//! How code over any store is written and proved: loops over keys, writes across pages, and tables in pages as typed
//! rows. The crates above follow these shapes.
#![tactic(auto)]

mod keys;
mod ledger;
mod pages;
mod visitor;

pub use keys::{clear_node, copy_node};
pub use ledger::{end_visit, entry, set_entry, set_guest, set_word, word};
pub use pages::write_across;
pub use visitor::{Mood, Visitor};
