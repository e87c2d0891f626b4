//! How a machine lies on a disk: what its bytes say, where areas, entries and blocks stand, how a block and an entry are
//! read, and how far a machine has got.
#![tactic(auto)]

mod generations;
mod label;
mod labels;
mod numbers;
mod places;
mod progress;
mod reading;

pub use generations::{read_entries, read_generation};
pub use label::Label;
pub use labels::{blocks_of_pages, length_of_disk, pages_fit, present, quantum_fits, read_label};
pub use numbers::{header_bytes, long_in, word_bytes, word_in};
pub use places::{Place, content_at, entry_at, home_at, place_of};
pub use progress::{DiskFault, Position};
pub use reading::{read_content, read_entry, read_home};
