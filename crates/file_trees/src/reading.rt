//! Reading bytes of a tree.

ghost use Rattle.std.specs.Prelude.{◌≡◌, ℕ, ◌+◌, ◌/◌, ◌%◌, ◌<◌, ◌≤◌, ◌^◌, length, replicate, List, []};
ghost use Rattle.kn_base.specs.Memory.{Memory};
ghost use Rattle.kn_base.specs.Rows.{part_at};
ghost use Rattle.kernel_tables.specs.Kernel.{Kernel, kernel_of, Sized, IsSized};
ghost use Rattle.space_bank.specs.Bank.{BankGood};
ghost use Rattle.space_bank.specs.Shares.{Outside};
ghost use Rattle.kernel_forest.specs.Trees.{TreesGood};
ghost use Rattle.kernel_machine.specs.Contents.{file_in};
ghost use Rattle.file_trees.specs.Trees.{IsTree, tree_memory, tree_page};

use kernel_tables::read_memory_page;
use kn_base::{NodeId, Store};
use seg_tree::{Space, find};

// Makes bytes zero.
fn clear(bytes: &mut [u8])
    ensures { bytes.new ≡ replicate (length bytes.old) 0 }
{
    bytes.fill(0);
}

// Reads bytes that lie in one page.
fn read_piece<T: Store>(store: &T, root: u32, at: u32, into: &mut [u8])
    requires good { BankGood (kernel_of (T.memory store.now)) }
    requires trees { (outside : Outside) × TreesGood (kernel_of (T.memory store.now)) outside [] }
    requires tree { IsTree (kernel_of (T.memory store.now)) root }
    requires low { at < 2 ^ 31 }
    requires within { at % 4096 + length into.old ≤ 4096 }
    ensures { into.new ≡ part_at (tree_page (tree_memory (kernel_of (T.memory store.now)) root) (at / 4096)) (at % 4096) (length into.old) }
{
    if root == 0 {
        clear(into);
        return;
    }
    match find(store, Space(NodeId(root)), at / 4096) {
        Some(found) => read_memory_page(store, found.page, (at % 4096) as u16, into),
        None => clear(into),
    }
}

/// Reads the bytes of a tree from a place on, as many as `into` has, where the tree's pages reach to 2^31 bytes. `root` is the root
/// word of a file or directory: 0 stands for no tree. Bytes of a page that isn't there are zero.
pub fn read_tree<T: Store>(store: &T, root: u32, at: u32, into: &mut [u8])
    requires good { BankGood (kernel_of (T.memory store.now)) }
    requires trees { (outside : Outside) × TreesGood (kernel_of (T.memory store.now)) outside [] }
    requires tree { IsTree (kernel_of (T.memory store.now)) root }
    requires within { at + length into.old ≤ 2 ^ 31 }
    ensures read { (size : ℕ) → at + length into.old ≤ size → into.new ≡ part_at (file_in (tree_memory (kernel_of (T.memory store.now)) root) size) at (length into.old) }
    ensures whole { length into.new ≡ length into.old }
{
    let mut done = 0;
    while done < into.len() {
        let here = at + done as u32;
        let end = into.len().min(done + 4096 - (here % 4096) as usize);
        read_piece(store, root, here, &mut into[done..end]);
        done = end;
    }
}
