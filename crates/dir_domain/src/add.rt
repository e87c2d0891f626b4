//! Names are added.

ghost use Rattle.std.specs.Prelude.{◌≡◌, ◌≢◌, ◌⊎◌, ℕ, ◌+◌, ◌-◌, ◌*◌, ◌/◌, ◌%◌, ◌<◌, ◌≤◌, true, false, slice_set};
ghost use Rattle.kn_base.specs.Memory.{Memory};
ghost use Rattle.kernel_tables.specs.Kernel.{Kernel, kernel_of};
ghost use Rattle.space_bank.specs.Bank.{BankGood};
ghost use Rattle.forest.specs.Calls.{IsOwn};
ghost use Rattle.forest.specs.Walks.{Mapping};
ghost use Rattle.kernel_forest.specs.Trees.{forest_of};
ghost use Rattle.unix_model.specs.Files.{is_directory};
ghost use Rattle.unix_model.specs.Limits.{place_bytes};
ghost use Rattle.unix_model.specs.Rules.{IsName, is_named_kind};
ghost use Rattle.kernel_machine.specs.Contents.{place_in};
ghost use Rattle.kernel_machine.specs.Standing.{Standing};
ghost use Rattle.file_trees.specs.Good.{FilesGood};
ghost use Rattle.dir_domain.specs.Changes.{AddsName, Appends, ChangesPlaces, Plants, more_pages, places_for};
ghost use Rattle.dir_domain.specs.Rows.{IsDirectoryRow, inode_seen};

use super::place::entry_bytes;
use super::row::directory_row;
use super::search::{first_hole, first_named};
use super::write::write_place;
use file_tables::set_inode;
use file_trees::put_piece;
use kernel_tables::{Inode, NodeOwner, PageOwner};
use kn_base::{Key, Store};
use seg_tree::{Space, new_space};
use space_bank::promise;
use unix_model::Errno;

// Makes a tree with one page, in which a place is written.
fn plant<T: Store>(store: &mut T, number: u32, bytes: &[u8; 32]) -> Space
    requires standing { Standing (kernel_of (T.memory store.old)) }
    requires number { number < 1024 }
    requires nodes { let old = kernel_of (T.memory store.old) in old.machine.nodes_taken + 28 ≤ old.nodes }
    requires pages { let old = kernel_of (T.memory store.old) in old.machine.pages_taken < old.size }
    ensures planted { Plants (kernel_of (T.memory store.old)) (kernel_of (T.memory store.new)) result.0.0 (32 * number) bytes.now }
    ensures good { BankGood (kernel_of (T.memory store.new)) }
    ensures most { (kernel_of (T.memory store.new)).machine.nodes_taken ≤ (kernel_of (T.memory store.old)).machine.nodes_taken + 13 }
    ensures keeps { T.keeps store.old store.new }
{
    let tree = new_space(store, NodeOwner::FileTree, Key::Null);
    put_piece(store, tree, 32 * number, bytes, PageOwner::Directory);
    tree
}

// Writes a place of a directory that has no tree and gets one, and this length.
fn root_place<T: Store>(
    store: &mut T,
    dir: u32,
    row: Inode,
    length: u32,
    number: u32,
    bytes: &[u8; 32],
)
    requires standing { Standing (kernel_of (T.memory store.old)) }
    requires row { IsDirectoryRow (kernel_of (T.memory store.old)) dir row }
    requires none { row.root ≡ 0 }
    requires order { row.length ≤ length }
    requires few { length ≤ 32768 }
    requires whole { length % 32 ≡ 0 }
    requires number { number < length / place_bytes }
    requires nodes { let old = kernel_of (T.memory store.old) in old.machine.nodes_taken + 28 ≤ old.nodes }
    requires pages { let old = kernel_of (T.memory store.old) in old.machine.pages_taken < old.size }
    ensures changed { let old = kernel_of (T.memory store.old) in ChangesPlaces old (kernel_of (T.memory store.new)) dir (slice_set (places_for old row length) number (place_in bytes.now)) }
    ensures promised { (kernel_of (T.memory store.new)).machine.promised ≡ (kernel_of (T.memory store.old)).machine.promised }
    ensures most { (kernel_of (T.memory store.new)).machine.nodes_taken ≤ (kernel_of (T.memory store.old)).machine.nodes_taken + 13 }
    ensures keeps { T.keeps store.old store.new }
{
    let tree = plant(store, number, bytes);
    let rooted = Inode {
        root: tree.0.0,
        length,
        ..row
    };
    set_inode(store, dir, rooted);
}

// Writes a place of a directory that has a tree, and gets this length.
fn stretch_place<T: Store>(
    store: &mut T,
    dir: u32,
    row: Inode,
    length: u32,
    number: u32,
    bytes: &[u8; 32],
)
    requires standing { Standing (kernel_of (T.memory store.old)) }
    requires row { IsDirectoryRow (kernel_of (T.memory store.old)) dir row }
    requires some { row.root ≢ 0 }
    requires order { row.length ≤ length }
    requires few { length ≤ 32768 }
    requires whole { length % 32 ≡ 0 }
    requires number { number < length / place_bytes }
    requires nodes { let old = kernel_of (T.memory store.old) in old.machine.nodes_taken + 28 ≤ old.nodes }
    requires pages { let old = kernel_of (T.memory store.old) in ((found : Mapping) → IsOwn (forest_of old) row.root (number / 128) found → ⊥) → old.machine.pages_taken < old.size }
    ensures changed { let old = kernel_of (T.memory store.old) in ChangesPlaces old (kernel_of (T.memory store.new)) dir (slice_set (places_for old row length) number (place_in bytes.now)) }
    ensures promised { (kernel_of (T.memory store.new)).machine.promised ≡ (kernel_of (T.memory store.old)).machine.promised }
    ensures most { (kernel_of (T.memory store.new)).machine.nodes_taken ≤ (kernel_of (T.memory store.old)).machine.nodes_taken + 13 }
    ensures keeps { T.keeps store.old store.new }
{
    let longer = Inode { length, ..row };
    set_inode(store, dir, longer);
    write_place(store, &longer, number, bytes);
}

// Writes a place of a directory, which has this length then: its own, or one place more.
fn put_place<T: Store>(
    store: &mut T,
    dir: u32,
    row: Inode,
    length: u32,
    number: u32,
    bytes: &[u8; 32],
)
    requires standing { Standing (kernel_of (T.memory store.old)) }
    requires row { IsDirectoryRow (kernel_of (T.memory store.old)) dir row }
    requires order { row.length ≤ length }
    requires few { length ≤ 32768 }
    requires whole { length % 32 ≡ 0 }
    requires number { number < length / place_bytes }
    requires nodes { let old = kernel_of (T.memory store.old) in old.machine.nodes_taken + 28 ≤ old.nodes }
    requires pages { let old = kernel_of (T.memory store.old) in (row.root ≢ 0 → (found : Mapping) → IsOwn (forest_of old) row.root (number / 128) found → ⊥) → old.machine.pages_taken < old.size }
    ensures changed { let old = kernel_of (T.memory store.old) in ChangesPlaces old (kernel_of (T.memory store.new)) dir (slice_set (places_for old row length) number (place_in bytes.now)) }
    ensures promised { (kernel_of (T.memory store.new)).machine.promised ≡ (kernel_of (T.memory store.old)).machine.promised }
    ensures most { (kernel_of (T.memory store.new)).machine.nodes_taken ≤ (kernel_of (T.memory store.old)).machine.nodes_taken + 13 }
    ensures keeps { T.keeps store.old store.new }
{
    if row.root == 0 {
        root_place(store, dir, row, length, number, bytes);
    } else {
        stretch_place(store, dir, row, length, number, bytes);
    }
}

// Promises a page where a directory of this length needs one for a place more, unless more than the bank's pages would be
// promised.
fn promise_place<T: Store>(store: &mut T, length: u32) -> bool
    requires good { BankGood (kernel_of (T.memory store.old)) }
    requires few { length ≤ 32768 }
    requires whole { length % 32 ≡ 0 }
    ensures granted { let old = kernel_of (T.memory store.old) in result ≡ true → (old.machine.promised + more_pages length ≤ old.size) × (kernel_of (T.memory store.new) ≡ record old { machine = record old.machine { promised = old.machine.promised + more_pages length } }) }
    ensures refused { let old = kernel_of (T.memory store.old) in result ≡ false → (old.size < old.machine.promised + more_pages length) × (kernel_of (T.memory store.new) ≡ old) }
    ensures good { BankGood (kernel_of (T.memory store.new)) }
    ensures keeps { T.keeps store.old store.new }
{
    if length % 4096 == 0 {
        promise(store, 1)
    } else {
        true
    }
}

// Puts an entry in a new place at the end of a directory. ENOSPC comes exactly where it has 1,024 places, or where the new place
// needs a page that can't be promised, and then nothing has changed.
fn append<T: Store>(store: &mut T, dir: u32, row: Inode, bytes: &[u8; 32]) -> Result<(), Errno>
    requires good { FilesGood (kernel_of (T.memory store.old)) }
    requires row { IsDirectoryRow (kernel_of (T.memory store.old)) dir row }
    ensures appended { Appends (kernel_of (T.memory store.old)) (kernel_of (T.memory store.new)) dir row (place_in bytes.now) result }
    ensures most { (kernel_of (T.memory store.new)).machine.nodes_taken ≤ (kernel_of (T.memory store.old)).machine.nodes_taken + 13 }
    ensures keeps { T.keeps store.old store.new }
{
    if row.length == 32768 {
        return Err(Errno::Enospc);
    }
    if promise_place(store, row.length) {
        put_place(store, dir, row, row.length + 32, row.length / 32, bytes);
        Ok(())
    } else {
        Err(Errno::Enospc)
    }
}

/// Gives an inode a name in a directory: in the first hole, else in a new place at the end, for which a page is promised where it
/// needs one. EEXIST comes where the name is there, and then ENOSPC where all 1,024 places are used, or where no page is left to
/// promise; nothing has changed then. How many entries name the inode is for the caller to count.
pub fn add_name<T: Store>(store: &mut T, dir: u32, name: &[u8], inode: u32) -> Result<(), Errno>
    requires good { FilesGood (kernel_of (T.memory store.old)) }
    requires directory { is_directory (inode_seen (kernel_of (T.memory store.old)) dir) ≡ true }
    requires name { IsName name.now }
    requires inode { is_named_kind (inode_seen (kernel_of (T.memory store.old)) inode) ≡ true }
    ensures added { AddsName (kernel_of (T.memory store.old)) (kernel_of (T.memory store.new)) dir name.now inode result }
    ensures good { FilesGood (kernel_of (T.memory store.new)) }
    ensures directory { is_directory (inode_seen (kernel_of (T.memory store.new)) dir) ≡ true }
    ensures most { (kernel_of (T.memory store.new)).machine.nodes_taken ≤ (kernel_of (T.memory store.old)).machine.nodes_taken + 13 }
    ensures keeps { T.keeps store.old store.new }
{
    let row = directory_row(store, dir);
    match first_named(store, &row, name) {
        Some(_) => return Err(Errno::Eexist),
        None => {}
    }
    let bytes = entry_bytes(inode, name);
    match first_hole(store, &row) {
        Some(number) => {
            put_place(store, dir, row, row.length, number, &bytes);
            Ok(())
        }
        None => append(store, dir, row, &bytes),
    }
}
