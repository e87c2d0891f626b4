//! Files: lists of bytes by the number of their inode, read, written and cut as the definitions say.
#![tactic(auto)]

mod cutting;
mod dropping;
mod growing;
mod lengths;
mod reading;
mod whole;
mod writing;

pub use dropping::drop_file;
pub use growing::grow;
pub use lengths::truncate;
pub use reading::read_at;
pub use whole::write_at;
pub use writing::put_all;
