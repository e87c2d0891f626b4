//! The words of the command line: a disk, a command, and its options.
#![tactic(auto)]

mod load_words;
mod options;
mod setup;
mod words;

pub use setup::{Load, Plan, Setup};
pub use words::{Command, default_setup, parse};
