//! What the calls on processes do on the plain machine: exit, fork, exec, wait, waitpid and kill, and the steps by which
//! a process ends.
#![tactic(auto)]

mod children;
mod ending;
mod executing;
mod find_program;
mod forking;
mod programs;
mod signals;
mod waiting;

pub use ending::{exit, exit_step};
pub use executing::exec;
pub use forking::fork;
pub use signals::kill;
pub use waiting::{wait, waitpid};
