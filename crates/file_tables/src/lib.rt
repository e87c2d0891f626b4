//! The tables of files: inodes and open descriptions by their numbers, and the least numbers that are free.
//!
//! The root words of inodes name the trees of files and directories and the pages of pipes. How they are handed over to the
//! table and back is said in the words of the bank and of the forest.
#![tactic(auto)]

mod descriptions;
mod free_numbers;
mod inodes;
mod laws;

pub use descriptions::{description_of, free_description, new_description, set_description};
pub use free_numbers::{Full, least_free_inode};
pub use inodes::{free_inode, inode_of, new_inode, set_inode};
pub use kernel_tables::{Description, Inode, InodeKind};
pub use laws::{
    fresh_files_are_good, fresh_files_name_nothing, other_page_given, other_page_taken,
    root_exchanged, root_handed_back, root_handed_over, root_in_hand, root_kept, root_out_of_hand,
    space_in_hand, space_out_of_hand, trees_beside_files,
};
