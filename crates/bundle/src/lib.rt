//! Bundles: texts of files from which a machine boots.
//!
//! A bundle is read entry by entry with [`next_entry`], from any source and never further than its line `end`. A line says one
//! entry; its path is looked up among those before it; its content is made from the lines that follow.
#![tactic(auto)]

mod contents;
mod entry;
mod fault;
mod key;
mod known;
mod line;
mod lines;
mod parts;
mod paths;
mod reader;
mod said;

pub use entry::{Bytes, Entry};
pub use fault::{BundleFault, BundleKind};
pub use reader::{BundleReader, next_entry};
