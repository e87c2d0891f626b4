//! The calls on names of the plain machine: their effects at the server.
#![tactic(auto)]

mod links;
mod making;
mod opening;
mod removing;
mod renaming;

pub use links::link;
pub use making::{made, mkdir};
pub use opening::open;
pub use removing::{rmdir, unlink};
pub use renaming::rename;
