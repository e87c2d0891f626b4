//! The machine that the kernel's tables hold, the flat state that it stands for, and what holds of it between turns.
#![tactic(auto)]

mod bounds;
mod calls;
mod changes;
mod invocations;
mod keeps;
mod loose;
mod marks;
mod standing;
mod views;

pub use bounds::{
    blank_is_left, buffer_is_left, good_is_accounted, held_with_domain, held_with_inode,
    hole_is_left, nodes_accounted, nodes_are_free, pages_accounted, promised_is_free,
    shared_is_left, taken_are_promised,
};
pub use calls::{description_set, domain_set, inode_set, life_set, roots_differ};
pub use changes::{
    description_written, files_written, inode_written, key_handed_over, numbers_written,
    spaces_changed,
};
pub use invocations::{
    fixed_are_good_but, fixed_are_settled, fixed_but_with_birth, fixed_but_with_gone,
    fixed_but_with_rows, fixed_with_invocation, invocation_unseen, slots_are_good_but,
    slots_are_settled, slots_but_with_domain, slots_but_with_wake, slots_with_invocation,
    standing_with_invocation,
};
pub use keeps::{
    fixed_with_birth, fixed_with_gone, fixed_with_rows, store_is_whole, trees_with_birth,
    trees_with_numbers,
};
pub use loose::{
    nothing_loose, standing_with_domain, standing_with_loose, standing_with_new_inode,
    standing_with_page, standing_with_pipe, standing_with_root, standing_with_space,
    standing_with_space_dropped, standing_with_space_set, standing_without_page,
};
pub use marks::{
    good_with_park, good_with_wake, good_with_wake_of_slot, marks_unseen, parked_with_wake,
    slots_are_named, standing_with_marks,
};
pub use standing::{
    good_is_both, owns_leaves, piece_leaves, put_leaves, remap_leaves, replace_leaves, slots_born,
    slots_changed, slots_gone, standing_with_birth, standing_with_buffer, standing_with_bytes,
    standing_with_description, standing_with_end, standing_with_gone, standing_with_inode,
    standing_with_life, standing_with_memory, standing_with_numbers, standing_with_tree,
    standing_with_words, standing_without_buffer,
};
pub use views::{
    description_changed, description_freed, domain_born, domain_changed, domain_gone,
    inode_changed, inode_freed, lives_unseen, memory_changed, memory_unseen, ring_changed,
    tree_changed, words_changed,
};
