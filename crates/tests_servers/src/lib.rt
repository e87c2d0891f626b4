//! Tests of the console over sources and sinks in memory, with calls that fail.
#![tactic(auto)]

#[cfg(test)]
mod console;
