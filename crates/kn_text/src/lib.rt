//! Texts that are read byte by byte: the lines of a source, and the numbers that they hold.
//!
//! A [`LineReader`] takes one line at a time from a source, and no byte after it. [`number_of`] reads a number in plain
//! decimal. Neither takes host memory.
#![tactic(auto)]

mod lines;
mod numbers;
mod slices;

pub use lines::{LineFault, LineReader};
pub use numbers::{NumberFault, number_of};
pub use slices::split_line;
