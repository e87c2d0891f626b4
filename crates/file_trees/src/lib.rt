//! The bytes of files and directories: a file is a list of bytes over a tree of the bank's pages, and a page of it that isn't
//! there is zero.
#![tactic(auto)]

mod cutting;
mod reading;
mod writing;

pub use cutting::{clear_piece, cut_pages, maps_below};
pub use reading::read_tree;
pub use writing::put_piece;
