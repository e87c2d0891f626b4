//! The laws of the Unix machine: what holds of every turn, whatever table of calls is served.
//!
//! Each law is the contract of a function without parameters, whose body does nothing: its statement stands in `specs/`,
//! its proof in `proofs/`.
#![tactic(auto)]

mod calls;
mod console;
mod descriptors;
mod lasting;
mod room;
mod rules;
mod tree;
mod turns;

pub use calls::{
    boot_pipes_fit, fork_leaves_child, new_name_goes, pipe_gives_front, pipe_takes_at_end,
    pipes_kept, write_then_read, written_is_read,
};
pub use console::{run_puts_few, turn_puts_few};
pub use descriptors::{
    free_description_exists, sent_descriptors_are_open, two_free_descriptions_exist,
};
pub use lasting::{entered_lasts, sent_lasts, waits_exactly};
pub use room::{boot_fits, turn_fits};
pub use rules::{
    boot_gives_rules, descriptors_kept, open_kept, sent_kept, sizes_kept, slots_have_descriptors,
};
pub use tree::{rename_looks_far, ways_beside_stay, ways_stay};
pub use turns::{blocked_changes_nothing, input_is_split, refusal_changes_phase};
