//! The state of the plain machine: processes in 64 slots, files, and what both promise of the machine's pages.
#![tactic(auto)]

mod answer;
mod ended_child;
mod heap;
mod pace;
mod phases;
mod process;
mod sent_call;
mod slot_table;
mod slots;
mod state;

pub use answer::Answer;
pub use ended_child::EndedChild;
pub use heap::Heap;
pub use pace::Pace;
pub use process::{Phase, Process};
pub use sent_call::SentCall;
pub use slots::Slots;
pub use state::State;
