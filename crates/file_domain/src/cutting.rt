//! Files get shorter.

ghost use Rattle.std.specs.Prelude.{◌≡◌, ◌≢◌, ℕ, ◌-◌, ◌<◌, ◌≤◌};
ghost use Rattle.kn_base.specs.Memory.{Memory};
ghost use Rattle.kernel_tables.specs.declared.inode.Inode.{Inode};
ghost use Rattle.kernel_tables.specs.Kernel.{Kernel, kernel_of, Sized, IsSized, inode_count};
ghost use Rattle.unix_model.specs.Numbers.{pages_of};
ghost use Rattle.file_trees.specs.Cuts.{without_pages};
ghost use Rattle.file_trees.specs.FileMemory.{IsFileMemory};
ghost use Rattle.file_trees.specs.Trees.{tree_memory};
ghost use Rattle.file_trees.specs.Good.{FilesGood};
ghost use Rattle.file_domain.specs.Good.{IsFileAt};
ghost use Rattle.file_domain.specs.Effects.{Resizes};
ghost use Rattle.file_domain.specs.Cutting.{ChangesTree, MapsBelow, MapsNoneBelow, without_rest, Shortens};

use crate::growing::pages_of;
use file_tables::{Inode, set_inode};
use file_trees::{clear_piece, cut_pages, maps_below};
use kernel_tables::PageOwner;
use kn_base::{NodeId, Store};
use seg_tree::{Space, drop_space};
use space_bank::unpromise;

// Gives back the pages of a file past a length that leaves one of them.
fn give_pages<T: Store>(store: &mut T, file: u32, inode: Inode, length: u32)
    requires good { FilesGood (kernel_of (T.memory store.old)) }
    requires number { file < inode_count }
    requires file { IsFileAt (kernel_of (T.memory store.old)) file inode }
    requires root { inode.root ≢ 0 }
    requires order { length ≤ inode.length }
    requires left { MapsBelow (kernel_of (T.memory store.old)) inode.root (pages_of length) }
    ensures given { ChangesTree (kernel_of (T.memory store.old)) (kernel_of (T.memory store.new)) file inode (without_pages (tree_memory (kernel_of (T.memory store.old)) inode.root) (pages_of length) (pages_of inode.length)) }
    ensures keeps { T.keeps store.old store.new }
{
    let tree = Space(NodeId(inode.root));
    cut_pages(store, tree, pages_of(length), pages_of(inode.length));
}

// Makes the rest of the page in which a length ends zero, where the page is there.
fn clear_rest<T: Store>(store: &mut T, file: u32, inode: Inode, length: u32)
    requires good { FilesGood (kernel_of (T.memory store.old)) }
    requires number { file < inode_count }
    requires file { IsFileAt (kernel_of (T.memory store.old)) file inode }
    requires root { inode.root ≢ 0 }
    requires order { length ≤ inode.length }
    ensures cleared { ChangesTree (kernel_of (T.memory store.old)) (kernel_of (T.memory store.new)) file inode (without_rest (tree_memory (kernel_of (T.memory store.old)) inode.root) length) }
    ensures keeps { T.keeps store.old store.new }
{
    let used = (length % 4096) as u16;
    if used != 0 {
        let tree = Space(NodeId(inode.root));
        clear_piece(store, tree, length, 4096 - used, PageOwner::File);
    }
}

// How many pages of a file lie past a shorter length.
fn pages_past(inode: Inode, length: u32) -> u32
    requires order { length ≤ inode.length }
    requires most { inode.length ≤ 4194304 }
    ensures { result ≡ pages_of inode.length - pages_of length }
{
    pages_of(inode.length) - pages_of(length)
}

// Writes a shorter length of a file, whose tree is one for it already, and takes the promise of the pages past it back.
fn lower_length<T: Store>(store: &mut T, file: u32, inode: Inode, length: u32)
    requires good { FilesGood (kernel_of (T.memory store.old)) }
    requires number { file < inode_count }
    requires file { IsFileAt (kernel_of (T.memory store.old)) file inode }
    requires order { length ≤ inode.length }
    requires memory { IsFileMemory (tree_memory (kernel_of (T.memory store.old)) inode.root) length }
    ensures lowered { Resizes (kernel_of (T.memory store.old)) (kernel_of (T.memory store.new)) file inode (record inode { length = length }) }
    ensures keeps { T.keeps store.old store.new }
{
    unpromise(store, pages_past(inode, length));
    set_inode(store, file, Inode { length, ..inode });
}

// Makes a file shorter whose tree keeps a page.
fn cut_tree<T: Store>(store: &mut T, file: u32, inode: Inode, length: u32)
    requires good { FilesGood (kernel_of (T.memory store.old)) }
    requires number { file < inode_count }
    requires file { IsFileAt (kernel_of (T.memory store.old)) file inode }
    requires root { inode.root ≢ 0 }
    requires order { length ≤ inode.length }
    requires left { MapsBelow (kernel_of (T.memory store.old)) inode.root (pages_of length) }
    ensures cut { Resizes (kernel_of (T.memory store.old)) (kernel_of (T.memory store.new)) file inode (record inode { length = length }) }
    ensures keeps { T.keeps store.old store.new }
{
    give_pages(store, file, inode, length);
    clear_rest(store, file, inode, length);
    lower_length(store, file, inode, length);
}

// Makes a file shorter whose tree keeps no page: a file without pages has no tree.
fn drop_tree<T: Store>(store: &mut T, file: u32, inode: Inode, length: u32)
    requires good { FilesGood (kernel_of (T.memory store.old)) }
    requires number { file < inode_count }
    requires file { IsFileAt (kernel_of (T.memory store.old)) file inode }
    requires root { inode.root ≢ 0 }
    requires order { length ≤ inode.length }
    requires none { MapsNoneBelow (kernel_of (T.memory store.old)) inode.root (pages_of length) }
    ensures dropped { Resizes (kernel_of (T.memory store.old)) (kernel_of (T.memory store.new)) file inode (record inode { length = length; root = 0 }) }
    ensures keeps { T.keeps store.old store.new }
{
    unpromise(store, pages_past(inode, length));
    set_inode(
        store,
        file,
        Inode {
            length,
            root: 0,
            ..inode
        },
    );
    drop_space(store, Space(NodeId(inode.root)));
}

/// Makes a file shorter, or leaves its length: pages past the new end are given back, and what is behind it in its last page
/// becomes zero. A file without pages has no tree.
pub fn shrink<T: Store>(store: &mut T, file: u32, inode: Inode, length: u32)
    requires good { FilesGood (kernel_of (T.memory store.old)) }
    requires number { file < inode_count }
    requires file { IsFileAt (kernel_of (T.memory store.old)) file inode }
    requires order { length ≤ inode.length }
    ensures shortened { Shortens (kernel_of (T.memory store.old)) (kernel_of (T.memory store.new)) file inode length }
    ensures keeps { T.keeps store.old store.new }
{
    if inode.root == 0 {
        lower_length(store, file, inode, length);
    } else if maps_below(store, Space(NodeId(inode.root)), pages_of(length)) {
        cut_tree(store, file, inode, length);
    } else {
        drop_tree(store, file, inode, length);
    }
}
