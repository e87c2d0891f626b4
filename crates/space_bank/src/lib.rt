//! The space bank: which pages and nodes of the store are free, how often what is taken is named, how many pages are
//! promised, and the bank of a new machine.
#![tactic(auto)]

mod contents;
mod counts;
mod empty;
mod entries;
mod laws;
mod nodes;
mod pages;
mod promises;

pub use contents::{copy_page, write_key, write_page};
pub use counts::{lower_node, lower_page, node_count, page_count, raise_node, raise_page};
pub use empty::setup;
pub use kernel_tables::{NodeOwner, PageOwner};
pub use laws::{
    hand_swapped, handed_out, no_node_is_free, no_page_is_free, node_in_hand_is_unnamed,
    nothing_in_hand, page_in_hand_is_unnamed,
};
pub use nodes::{give_node, take_node};
pub use pages::{give_page, take_page};
pub use promises::{Taken, machine_word, promise, promised, set_machine_word, taken_of, unpromise};
