//! The rules of a state of the Unix machine: boot gives them, and every turn keeps them, whatever table of calls is served.
//!
//! Each law is the contract of a function without parameters, whose body does nothing: its statement stands in `specs/`,
//! its proof in `proofs/`.
#![tactic(auto)]

mod files;
mod names;
mod processes;
mod refusals;
mod waits;
mod whole;

pub use files::{files_kept, walks_stand};
pub use names::link_then_unlink;
pub use processes::{bodies_kept, executed_stays, kin_kept, phases_kept};
pub use refusals::{keeper_rows, pipe_wants_inode, server_rows};
pub use waits::waiting_lasts;
pub use whole::{alone_is_right, runs_stay, unix_stays};
