//! How many pages a space maps.

ghost use Rattle.std.specs.Prelude.{◌≡◌, ◌≢◌, false, ℕ, ◌+◌, ◌-◌, ◌*◌, ◌<◌, ◌≤◌, IsSome, Some, List, []};
ghost use Rattle.kn_base.specs.declared.key.Key.{Key};
ghost use Rattle.kn_base.specs.Memory.{Memory};
ghost use Rattle.kernel_tables.specs.Kernel.{Kernel, kernel_of, Sized, IsSized};
ghost use Rattle.space_bank.specs.Bank.{BankGood};
ghost use Rattle.space_bank.specs.Shares.{Outside};
ghost use Rattle.forest.specs.Objects.{NodeObject, named};
ghost use Rattle.forest.specs.Forest.{IsSpace, Sound};
ghost use Rattle.forest.specs.Mapped.{mapped, pages_below};
ghost use Rattle.kernel_forest.specs.Trees.{forest_of, TreesGood};

use super::spaces::Space;
use super::steps::tree_key;
use super::walk::key_below;
use kn_base::{Key, Store};

// 1 for the key of a page.
fn page_number(key: Key) -> u32
    ensures { (keys : ℕ → Key) → result ≡ pages_below keys key 0 }
{
    match key {
        Key::Page { .. } => 1,
        _ => 0,
    }
}

// Whether a key leads to a node of a tree. Below any other key no page stands.
fn is_segment(key: Key) -> bool
    ensures { result ≡ false → (keys : ℕ → Key) (levels : ℕ) → levels ≢ 0 → pages_below keys key levels ≡ 0 }
{
    match key {
        Key::Segment { .. } => true,
        _ => false,
    }
}

// The number of pages so many levels below a key of a tree.
fn pages_below<T: Store>(store: &T, key: Key, levels: u8) -> u32
    requires good { BankGood (kernel_of (T.memory store.now)) }
    requires sound { Sound (forest_of (kernel_of (T.memory store.now))) }
    requires owned { (node : ℕ) → named key ≡ Some (NodeObject node) → IsSome ((forest_of (kernel_of (T.memory store.now))).owner (NodeObject node)) }
    requires few { levels ≤ 4 }
    ensures { result ≡ pages_below (forest_of (kernel_of (T.memory store.now))).keys key levels }
{
    if levels == 0 {
        return page_number(key);
    }
    if !is_segment(key) {
        return 0;
    }
    let mut pages = 0;
    for digit in 0..16 {
        let below = key_below(store, key, digit);
        pages += pages_below(store, below, levels - 1);
    }
    pages
}

/// The number of page numbers at which a space maps a page.
pub fn mapped<T: Store>(store: &T, space: Space) -> u32
    requires good { BankGood (kernel_of (T.memory store.now)) }
    requires trees { (outside : Outside) × TreesGood (kernel_of (T.memory store.now)) outside [] }
    requires space { IsSpace (forest_of (kernel_of (T.memory store.now))) [] space.0.0 }
    ensures { result ≡ mapped (forest_of (kernel_of (T.memory store.now))).keys space.0.0 }
{
    let mut pages = 0;
    for digit in 0..8 {
        pages += pages_below(store, tree_key(store, space.0, digit), 4);
    }
    pages
}
