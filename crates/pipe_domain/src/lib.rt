//! Pipes (POSIX.1, pipe(2), read(2) and write(2), narrowed): a pipe is a queue of at most 4,096 bytes, in a ring in its page.
#![tactic(auto)]

mod ends;
mod laws;
mod made;
mod piped;
mod pipes;
mod rings;

pub use laws::{pipe_is_good, pipe_is_seen};
pub use made::new_pipe;
pub use piped::Piped;
pub use pipes::{put, take};
