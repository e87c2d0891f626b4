//! Invocations: how one domain calls another, how a call is answered, and what both leave of their lives.
#![tactic(auto)]

mod calls;
mod laws;
mod parking;
mod reach;
mod room;
mod types;

pub use calls::{call, fork, ret};
pub use laws::{others_are_left, resume_law};
pub use parking::{is_parked, park, wake, wake_slot};
pub use types::{Delivered, InvokeFault, Message, WaitFor};
