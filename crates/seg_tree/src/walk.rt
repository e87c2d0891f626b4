//! Walking down a space.

ghost use Rattle.std.specs.Prelude.{◌≡◌, ℕ, ◌+◌, ◌-◌, ◌*◌, ◌/◌, ◌%◌, ◌<◌, ◌≤◌, ◌^◌, ◌⊎◌, IfSome, IsSome, Some, None, List, []};
ghost use Rattle.kn_base.specs.declared.key.Key.{Key};
ghost use Rattle.kn_base.specs.Memory.{Memory};
ghost use Rattle.kernel_tables.specs.Kernel.{Kernel, kernel_of, Sized, IsSized};
ghost use Rattle.space_bank.specs.Bank.{BankGood};
ghost use Rattle.unix_model.specs.Tables.{at};
ghost use Rattle.forest.specs.Objects.{NodeObject, named};
ghost use Rattle.forest.specs.Walks.{digits, map_of, key_along, key_below, space_key};
ghost use Rattle.forest.specs.Forest.{IsSpace, Sound};
ghost use Rattle.space_bank.specs.Shares.{Outside};
ghost use Rattle.kernel_forest.specs.Trees.{forest_of, TreesGood};
ghost use Rattle.seg_tree.specs.Promises.{found_mapping};
ghost use Rattle.seg_tree.specs.Writes.{IsInUse};

use super::spaces::Space;
use super::steps::{segment_of, tree_key};
use kn_base::{Key, NodeId, PageId, Store};

/// What is mapped at a page number.
#[derive(Clone, Copy, Debug, PartialEq, Eq)]
pub struct Found {
    /// Page 0, which is the page of zeros, or a page of the bank.
    pub page: PageId,
    pub writable: bool,
}

/// The key at a digit of the node that a key of a tree stands for.
pub fn key_below<T: Store>(store: &T, upper: Key, digit: u8) -> Key
    requires good { BankGood (kernel_of (T.memory store.now)) }
    requires owned { (node : ℕ) → named upper ≡ Some (NodeObject node) → IsSome ((forest_of (kernel_of (T.memory store.now))).owner (NodeObject node)) }
    requires digit { digit < 16 }
    ensures { result ≡ key_below (forest_of (kernel_of (T.memory store.now))).keys upper digit }
{
    match upper {
        Key::Segment { id, .. } => tree_key(store, id, digit),
        _ => Key::Null,
    }
}

/// The key so many levels below a space's root on the way to a number.
pub fn key_on_way<T: Store>(store: &T, space: NodeId, levels: u8, number: u32) -> Key
    requires good { BankGood (kernel_of (T.memory store.now)) }
    requires sound { Sound (forest_of (kernel_of (T.memory store.now))) }
    requires space { IsSpace (forest_of (kernel_of (T.memory store.now))) [] space.0 }
    ensures { result ≡ key_along (forest_of (kernel_of (T.memory store.now))).keys (space_key space.0) (digits levels number) }
{
    if levels == 0 {
        return Key::Segment {
            id: space,
            height: 5,
        };
    }
    let upper = key_on_way(store, space, levels - 1, number / 16);
    key_below(store, upper, (number % 16) as u8)
}

/// The page that is mapped at a page number below 2^19, and whether it may be written. None comes exactly where none is.
pub fn find<T: Store>(store: &T, space: Space, page: u32) -> Option<Found>
    requires good { BankGood (kernel_of (T.memory store.now)) }
    requires trees { (outside : Outside) × TreesGood (kernel_of (T.memory store.now)) outside [] }
    requires space { IsSpace (forest_of (kernel_of (T.memory store.now))) [] space.0.0 }
    requires page { page < 2 ^ 19 }
    ensures found { found_mapping result ≡ map_of (forest_of (kernel_of (T.memory store.now))).keys space.0.0 page }
    ensures in_use { IfSome result (λ found. (found.page.0 ≡ 0) ⊎ IsInUse (kernel_of (T.memory store.now)) found.page.0) }
{
    match key_on_way(store, space.0, 5, page) {
        Key::Page { id, writable } => Some(Found { page: id, writable }),
        _ => None,
    }
}
