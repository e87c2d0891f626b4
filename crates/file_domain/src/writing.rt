//! Writing files.

ghost use Rattle.std.specs.Prelude.{◌≡◌, ◌≢◌, ℕ, ◌+◌, ◌-◌, ◌*◌, ◌/◌, ◌%◌, ◌<◌, ◌≤◌, ◌^◌, length};
ghost use Rattle.kn_base.specs.Memory.{Memory};
ghost use Rattle.kernel_tables.specs.declared.inode.Inode.{Inode};
ghost use Rattle.kernel_tables.specs.Kernel.{Kernel, kernel_of, Sized, IsSized, inode_count};
ghost use Rattle.file_trees.specs.Good.{FilesGood};
ghost use Rattle.file_domain.specs.Good.{IsFileAt};
ghost use Rattle.file_domain.specs.Effects.{PutsAt};

use file_tables::{Inode, inode_of, set_inode};
use file_trees::put_piece;
use kernel_tables::{NodeOwner, PageOwner};
use kn_base::{Key, NodeId, Store};
use seg_tree::{Space, new_space};

// Writes bytes that lie in one page into the tree that a file has.
fn put_there<T: Store>(store: &mut T, file: u32, inode: Inode, at: u32, from: &[u8])
    requires good { FilesGood (kernel_of (T.memory store.old)) }
    requires number { file < inode_count }
    requires file { IsFileAt (kernel_of (T.memory store.old)) file inode }
    requires root { inode.root ≢ 0 }
    requires some { 1 ≤ length from.now }
    requires inside { at % 4096 + length from.now ≤ 4096 }
    requires within { at + length from.now ≤ inode.length }
    ensures put { PutsAt (kernel_of (T.memory store.old)) (kernel_of (T.memory store.new)) file at from.now }
    ensures keeps { T.keeps store.old store.new }
{
    put_piece(store, Space(NodeId(inode.root)), at, from, PageOwner::File);
}

// Writes the first bytes of a file that has no tree: it gets one.
fn put_first<T: Store>(store: &mut T, file: u32, inode: Inode, at: u32, from: &[u8])
    requires good { FilesGood (kernel_of (T.memory store.old)) }
    requires number { file < inode_count }
    requires file { IsFileAt (kernel_of (T.memory store.old)) file inode }
    requires root { inode.root ≡ 0 }
    requires some { 1 ≤ length from.now }
    requires inside { at % 4096 + length from.now ≤ 4096 }
    requires within { at + length from.now ≤ inode.length }
    ensures put { PutsAt (kernel_of (T.memory store.old)) (kernel_of (T.memory store.new)) file at from.now }
    ensures keeps { T.keeps store.old store.new }
{
    let tree = new_space(store, NodeOwner::FileTree, Key::Null);
    put_piece(store, tree, at, from, PageOwner::File);
    let root = tree.0.0;
    set_inode(store, file, Inode { root, ..inode });
}

// Writes bytes that lie in one page of a file, within its length.
fn put_at<T: Store>(store: &mut T, file: u32, at: u32, from: &[u8])
    requires good { FilesGood (kernel_of (T.memory store.old)) }
    requires number { file < inode_count }
    requires file { (inode : Inode) × IsFileAt (kernel_of (T.memory store.old)) file inode × (at + length from.now ≤ inode.length) }
    requires some { 1 ≤ length from.now }
    requires inside { at % 4096 + length from.now ≤ 4096 }
    ensures put { PutsAt (kernel_of (T.memory store.old)) (kernel_of (T.memory store.new)) file at from.now }
    ensures keeps { T.keeps store.old store.new }
{
    match inode_of(store, file) {
        Some(inode) => {
            if inode.root == 0 {
                put_first(store, file, inode, at, from);
            } else {
                put_there(store, file, inode, at, from);
            }
        }
        None => {}
    }
}

/// Writes bytes over others of a file, within its length, page by page. A page is taken where none was, and the file gets a tree
/// with its first page. That these are free follows from the promise for the file's length.
pub fn put_all<T: Store>(store: &mut T, file: u32, at: u32, from: &[u8])
    requires good { FilesGood (kernel_of (T.memory store.old)) }
    requires number { file < inode_count }
    requires file { (inode : Inode) × IsFileAt (kernel_of (T.memory store.old)) file inode × (at + length from.now ≤ inode.length) }
    ensures put { PutsAt (kernel_of (T.memory store.old)) (kernel_of (T.memory store.new)) file at from.now }
    ensures keeps { T.keeps store.old store.new }
{
    let mut done = 0;
    while done < from.len() {
        let here = at + done as u32;
        let end = from.len().min(done + 4096 - (here % 4096) as usize);
        put_at(store, file, here, &from[done..end]);
        done = end;
    }
}
