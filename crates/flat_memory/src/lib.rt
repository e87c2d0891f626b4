//! The memory of a process on the plain machine: its pages, what one instruction does to it, and how a program is loaded.
#![tactic(auto)]

mod bytes;
mod decode;
mod execution;
mod loading;
mod memory;
mod page;
mod pages;
mod places;
mod region;
mod stack_bytes;

pub use execution::execute;
pub use loading::{Program, load_program};
pub use memory::Memory;
pub use page::Page;
pub use pages::Pages;
pub use places::free_places;
pub use stack_bytes::Stack;
