//! Tests of the whole machine over a store in memory.
#![tactic(auto)]

#[cfg(test)]
mod first;
