//! Address spaces over the bank: trees of nodes over pages, which share what they can.
//!
//! A space is a tree's root and stands for a flat map from page numbers to pages. Each call changes the map of one space and
//! leaves that of every other one, though they share nodes and pages: what is shared is copied on the way to what changes.
#![tactic(auto)]

mod checking;
mod count;
mod descent;
mod empty;
mod leaf;
mod pruning;
mod release;
mod spaces;
mod steps;
mod walk;
mod writing;

pub use checking::check_space;
pub use count::mapped;
pub use pruning::unmap;
pub use release::drop_space;
pub use spaces::{Space, map_zero, new_space, protect, share};
pub use walk::{Found, find};
pub use writing::writable;
