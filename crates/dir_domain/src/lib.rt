//! Directories: the bytes of a directory's tree are its places, each the number of an inode and a name, or a hole.
#![tactic(auto)]

mod add;
mod find;
mod listing;
mod place;
mod rename;
mod row;
mod search;
mod write;

pub use add::add_name;
pub use find::find_name;
pub use listing::entries_from;
pub use rename::{remove_name, replace_name};
