//! Tests of pipes over a store in memory, beside a plain queue.
#![tactic(auto)]

mod counted;
#[cfg(test)]
mod pipes;
#[cfg(test)]
mod piping;

pub use counted::count_opens;
