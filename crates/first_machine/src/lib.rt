//! The machine before anything is loaded: an empty bank, and a process with an empty memory in slot 0.
#![tactic(auto)]

mod make;

pub use make::first_machine;
