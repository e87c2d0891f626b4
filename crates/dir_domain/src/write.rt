//! Places are written.

ghost use Rattle.std.specs.Prelude.{◌≡◌, ◌≢◌, ℕ, ◌+◌, ◌/◌, ◌<◌, ◌≤◌, slice_set};
ghost use Rattle.kn_base.specs.Memory.{Memory};
ghost use Rattle.kernel_tables.specs.Kernel.{Kernel, kernel_of};
ghost use Rattle.forest.specs.Calls.{IsOwn};
ghost use Rattle.forest.specs.Walks.{Mapping};
ghost use Rattle.kernel_forest.specs.Trees.{forest_of};
ghost use Rattle.unix_model.specs.Limits.{place_bytes};
ghost use Rattle.kernel_machine.specs.Contents.{place_in};
ghost use Rattle.kernel_machine.specs.Standing.{Standing};
ghost use Rattle.dir_domain.specs.Changes.{ChangesPlaces};
ghost use Rattle.dir_domain.specs.Rows.{IsDirectoryRow, places_seen};

use file_trees::put_piece;
use kernel_tables::{Inode, PageOwner};
use kn_base::{NodeId, Store};
use seg_tree::Space;

/// Writes a place of a directory that has a tree. It takes a page exactly where the tree has none of its own there, and at most
/// twelve nodes.
pub fn write_place<T: Store>(store: &mut T, row: &Inode, number: u32, bytes: &[u8; 32])
    requires standing { Standing (kernel_of (T.memory store.old)) }
    requires row { (dir : ℕ) × IsDirectoryRow (kernel_of (T.memory store.old)) dir row.now }
    requires tree { row.now.root ≢ 0 }
    requires number { number < row.now.length / place_bytes }
    requires nodes { let old = kernel_of (T.memory store.old) in old.machine.nodes_taken + 28 ≤ old.nodes }
    requires pages { let old = kernel_of (T.memory store.old) in ((found : Mapping) → IsOwn (forest_of old) row.now.root (number / 128) found → ⊥) → old.machine.pages_taken < old.size }
    ensures changed { let old = kernel_of (T.memory store.old) in (dir : ℕ) → IsDirectoryRow old dir row.now → ChangesPlaces old (kernel_of (T.memory store.new)) dir (slice_set (places_seen old dir) number (place_in bytes.now)) }
    ensures promised { (kernel_of (T.memory store.new)).machine.promised ≡ (kernel_of (T.memory store.old)).machine.promised }
    ensures most { (kernel_of (T.memory store.new)).machine.nodes_taken ≤ (kernel_of (T.memory store.old)).machine.nodes_taken + 12 }
    ensures keeps { T.keeps store.old store.new }
{
    let tree = Space(NodeId(row.root));
    put_piece(store, tree, 32 * number, bytes, PageOwner::Directory);
}
