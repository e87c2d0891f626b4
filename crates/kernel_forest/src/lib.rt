//! The forest of a kernel: what of its tables belongs to trees, and how the counts of the bank and those of the forest go
//! together. This is the one place where both are spoken of.
#![tactic(auto)]

mod apart;
mod changes;
mod counts;
mod releases;

pub use apart::{node_stays_apart, page_stays_apart};
pub use changes::{
    counts_node_less, counts_page_less, gives_domain_node, raises_tree_node, raises_tree_page,
    takes_domain_node, takes_tree_node, takes_tree_page, writes_row, writes_tree_key,
};
pub use counts::{bank_is_exact, empty_is_good, root_is_single, space_handed_out, untaken_is_good};
pub use releases::{gives_node, gives_page, lowers_node, lowers_page};
