//! A program is loaded into a space: the pages that it needs, that they are mapped before its bytes come, its stack, and that the
//! pages that no load makes writable are read-only once its bytes are there.
#![tactic(auto)]

mod law;
mod needed;
mod pages;
mod seal;
mod stack;
mod start;

pub use law::loading_is_image;
pub use needed::needed_pages;
pub use pages::map_plan;
pub use seal::seal_plan;
pub use start::put_start;
