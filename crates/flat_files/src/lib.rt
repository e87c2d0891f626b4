//! The files of the plain machine: inodes, directories with their places, open descriptions, the pages that they promise,
//! and the walk of a path.
#![tactic(auto)]

mod contents;
mod description;
mod descriptions;
mod directory;
mod entries;
mod entry;
mod files;
mod free_numbers;
mod holders;
mod inode;
mod inodes;
mod names;
mod opened;
mod pipe;
mod places;
mod spot;
mod walk;

pub use contents::{Contents, front, rest};
pub use description::Description;
pub use descriptions::Descriptions;
pub use directory::Directory;
pub use entry::Entry;
pub use files::Files;
pub use inode::Inode;
pub use inodes::Inodes;
pub use opened::Opened;
pub use pipe::Pipe;
pub use places::free_places;
pub use spot::Spot;
pub use walk::is_slashed;
