//! A system call at the keeper of the plain machine: the tests that need the process alone and its descriptors, and the
//! bytes that the call brings to its server.
#![tactic(auto)]

mod breaks;
mod entering;
mod fault;
mod lines;
mod sending;
mod strings;
mod texts;

pub use entering::enter;
