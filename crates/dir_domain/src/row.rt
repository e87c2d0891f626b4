//! The row of a directory, and the pages of its tree.

ghost use Rattle.std.specs.Prelude.{◌≡◌, ◌⊎◌, ℕ, ◌<◌, ◌^◌, true};
ghost use Rattle.kn_base.specs.Memory.{Memory};
ghost use Rattle.kernel_tables.specs.Kernel.{Kernel, kernel_of, IsBankPage, memory_page};
ghost use Rattle.unix_model.specs.Files.{is_directory};
ghost use Rattle.kernel_machine.specs.Standing.{Standing};
ghost use Rattle.file_trees.specs.Trees.{IsTree, tree_memory};
ghost use Rattle.file_trees.specs.Trees.{tree_page as tree_bytes};
ghost use Rattle.dir_domain.specs.Rows.{IsDirectoryRow, inode_seen};

use file_tables::inode_of;
use kernel_tables::{Inode, InodeKind};
use kn_base::{NodeId, PageId, Store};
use seg_tree::{Space, find};

/// The row of a directory.
pub fn directory_row<T: Store>(store: &T, dir: u32) -> Inode
    requires standing { Standing (kernel_of (T.memory store.now)) }
    requires directory { is_directory (inode_seen (kernel_of (T.memory store.now)) dir) ≡ true }
    ensures { IsDirectoryRow (kernel_of (T.memory store.now)) dir result }
{
    match inode_of(store, dir) {
        Some(row) => row,
        None => Inode {
            kind: InodeKind::Dir,
            length: 0,
            entries: 0,
            opens: 0,
            root: 0,
            parent: 0,
            start: 0,
        },
    }
}

/// The page at a page number of a directory's tree, or page 0, which is the page of zeros, where none is mapped.
pub fn tree_page<T: Store>(store: &T, root: u32, number: u32) -> PageId
    requires standing { Standing (kernel_of (T.memory store.now)) }
    requires tree { IsTree (kernel_of (T.memory store.now)) root }
    requires number { number < 2 ^ 19 }
    ensures bytes { memory_page (kernel_of (T.memory store.now)) result.0 ≡ tree_bytes (tree_memory (kernel_of (T.memory store.now)) root) number }
    ensures inside { (result.0 ≡ 0) ⊎ IsBankPage (kernel_of (T.memory store.now)).size result.0 }
{
    if root == 0 {
        return PageId(0);
    }
    match find(store, Space(NodeId(root)), number) {
        Some(found) => found.page,
        None => PageId(0),
    }
}
