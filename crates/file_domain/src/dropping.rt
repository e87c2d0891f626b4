//! Inodes go, with all that they have.

ghost use Rattle.std.specs.Prelude.{◌≡◌, ◌≢◌, ℕ, ◌-◌, ◌<◌, ◌≤◌, List};
ghost use Rattle.kn_base.specs.Memory.{Memory};
ghost use Rattle.kernel_tables.specs.declared.inode.Inode.{Inode};
ghost use Rattle.kernel_tables.specs.declared.inode.InodeKind.TheVariants.{File, Pipe};
ghost use Rattle.kernel_tables.specs.declared.row.Row.TheVariants.{Used};
ghost use Rattle.kernel_tables.specs.Kernel.{Kernel, kernel_of, Sized, IsSized, inode_count, inode_at};
ghost use Rattle.kernel_machine.specs.Invocations.{FixedBut};
ghost use Rattle.kernel_machine.specs.Loose.{StandingBut, word_of};
ghost use Rattle.file_trees.specs.Good.{FilesGood};
ghost use Rattle.file_domain.specs.Dropping.{DropsInode, IsNamedOnce, IsUnnamed, Releases, row_pages};

use crate::growing::pages_of;
use file_tables::{Inode, InodeKind, free_inode, inode_of};
use kn_base::{NodeId, PageId, Store};
use seg_tree::{Space, drop_space};
use space_bank::{give_page, unpromise};

// Gives back the tree of a root word that no inode has any more. The word 0 stands for none.
fn give_tree<T: Store>(store: &mut T, root: u32)
    requires loose { StandingBut (kernel_of (T.memory store.old)) (word_of File root) }
    ensures released { Releases (kernel_of (T.memory store.old)) (kernel_of (T.memory store.new)) root File }
    ensures keeps { T.keeps store.old store.new }
{
    if root != 0 {
        drop_space(store, Space(NodeId(root)));
    }
}

// Gives back the page of a pipe that no inode has any more.
fn give_ring<T: Store>(store: &mut T, page: u32)
    requires loose { StandingBut (kernel_of (T.memory store.old)) (word_of Pipe page) }
    requires real { page ≢ 0 }
    requires once { IsNamedOnce (kernel_of (T.memory store.old)) page }
    ensures released { Releases (kernel_of (T.memory store.old)) (kernel_of (T.memory store.new)) page Pipe }
    ensures keeps { T.keeps store.old store.new }
{
    give_page(store, PageId(page));
}

// Gives back what an inode had that has none any more.
fn give_root<T: Store>(store: &mut T, inode: Inode)
    requires loose { StandingBut (kernel_of (T.memory store.old)) (word_of inode.kind inode.root) }
    requires real { inode.kind ≡ Pipe → inode.root ≢ 0 }
    requires once { inode.kind ≡ Pipe → IsNamedOnce (kernel_of (T.memory store.old)) inode.root }
    ensures released { Releases (kernel_of (T.memory store.old)) (kernel_of (T.memory store.new)) inode.root inode.kind }
    ensures keeps { T.keeps store.old store.new }
{
    match inode.kind {
        InodeKind::File | InodeKind::Dir => give_tree(store, inode.root),
        InodeKind::Pipe => give_ring(store, inode.root),
        InodeKind::Console => {}
    }
}

// How many pages an inode is promised.
fn promised_of(inode: Inode) -> u32
    requires few { inode.length ≤ 4194304 }
    ensures pages { result ≡ row_pages inode.kind inode.length }
{
    match inode.kind {
        InodeKind::File | InodeKind::Dir => pages_of(inode.length),
        InodeKind::Pipe => 1,
        InodeKind::Console => 0,
    }
}

// Frees the number of an inode, then gives back what its row had and takes its promise back.
fn drop_row<T: Store>(store: &mut T, number: u32, inode: Inode)
    requires good { FilesGood (kernel_of (T.memory store.old)) }
    requires low { 2 ≤ number }
    requires number { number < inode_count }
    requires unnamed { IsUnnamed (kernel_of (T.memory store.old)) number inode }
    requires fixed { inode.kind ≡ Pipe → (apart : List ℕ) × FixedBut (kernel_of (T.memory store.old)) apart }
    ensures dropped { DropsInode (kernel_of (T.memory store.old)) (kernel_of (T.memory store.new)) number inode }
    ensures keeps { T.keeps store.old store.new }
{
    let pages = promised_of(inode);
    free_inode(store, number);
    give_root(store, inode);
    unpromise(store, pages);
}

/// Drops the inode of a file, a directory or a pipe that has no entry and isn't open: its number is free then. Its tree is given back,
/// but for what other trees have too, or its page, and so is the promise for it.
pub fn drop_file<T: Store>(store: &mut T, inode: u32)
    requires good { FilesGood (kernel_of (T.memory store.old)) }
    requires low { 2 ≤ inode }
    requires number { inode < inode_count }
    requires unnamed { (row : Inode) × IsUnnamed (kernel_of (T.memory store.old)) inode row }
    requires fixed { (row : Inode) → inode_at (kernel_of (T.memory store.old)) inode ≡ Used row → row.kind ≡ Pipe → (apart : List ℕ) × FixedBut (kernel_of (T.memory store.old)) apart }
    ensures dropped { (row : Inode) → inode_at (kernel_of (T.memory store.old)) inode ≡ Used row → DropsInode (kernel_of (T.memory store.old)) (kernel_of (T.memory store.new)) inode row }
    ensures keeps { T.keeps store.old store.new }
{
    match inode_of(store, inode) {
        Some(row) => drop_row(store, inode, row),
        None => {}
    }
}
