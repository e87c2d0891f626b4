//! Bytes of spaces: a process's memory is read and written across its pages, in the words of flat memory.
#![tactic(auto)]

mod fault;
mod read;
mod write;

pub use fault::CopyFault;
pub use read::{take_bytes, take_text};
pub use write::{can_write, page_owner, put_bytes, put_in_page};
