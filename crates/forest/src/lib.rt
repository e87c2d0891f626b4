//! The theory of address spaces as shared trees: what a forest is, and the laws that copying on write rests on.
//!
//! A forest is a table of keys in which trees share what stands below their roots (`specs/Forest.antt`). A space is a
//! tree's root, and stands for a flat map from page numbers to pages. Each law is the contract of a function without
//! parameters, whose body does nothing: its statement stands in `specs/`, its proof in `proofs/`.
#![tactic(auto)]

mod calls;
mod empty;
mod exact;
mod example;
mod held;
mod maps;
mod own;
mod reach;
mod release;

pub use calls::{
    call_adds_space, call_changes_map, call_drops_space, call_shares_space, own_has_own_way,
    own_way_is_own,
};
pub use empty::{
    descent_leaves_last_empty, pruning_empties_above, release_leaves_none_empty,
    spaces_are_well_formed, taking_away_empties, write_elsewhere_keeps_filled, write_fills,
};
pub use exact::{
    give_is_exact, hand_in_is_exact, hand_out_is_exact, lower_is_exact, raise_is_exact,
    take_is_exact, write_is_exact,
};
pub use example::{example_holds, example_shows};
pub use held::{
    copy_keeps_held, hand_in_keeps_held, hand_out_keeps_held, held_nothing, held_outside,
    raise_keeps_held, share_keeps_held, take_keeps_held, write_keeps_held,
};
pub use maps::{
    detach_keeps_maps, fresh_keeps_maps, masked_owners, masked_writes, prune_keeps_maps,
    share_keeps_maps, unnamed_keeps_maps, write_changes_one_map,
};
pub use own::{
    changes_one_page, copy_makes_own, makes_way_own, own_is_alone, own_page_is_alone,
    page_may_stand,
};
pub use reach::{
    alike_is_equally_many, every_page_is_mapped, everything_is_reached, mapped_is_sum,
    taken_is_different,
};
pub use release::{
    release_gives_unnamed, release_goes_down, release_keeps_spaces, release_keeps_ways,
    release_thins, release_trans,
};
