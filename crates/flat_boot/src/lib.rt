//! Boot of the plain machine: the empty machine, its directories and files, and its first process.
#![tactic(auto)]

mod entries;
mod fault;
mod files;
mod loading;
mod machine;
mod making;

pub use entries::{add_dir, add_file, is_new_path};
pub use fault::BootFault;
pub use files::file_at;
pub use loading::start;
pub use machine::new;
