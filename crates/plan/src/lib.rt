//! Given schedules as texts.
//!
//! Each line says a [`Span`]: a slot, and how many turns in a row it gets. [`next_span`] takes one line of a source, and
//! [`read_plan`] all of them. [`round_slot`] says whose turn it is where no schedule is given.
#![tactic(auto)]

mod round;
mod span;
mod streams;

pub use round::round_slot;
pub use span::Span;
pub use streams::{PlanFault, next_span, read_plan};
