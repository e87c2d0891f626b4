//! Inodes by their numbers.

ghost use Rattle.std.specs.Prelude.{◌≡◌, ◌≢◌, ℕ, ◌<◌, ◌≤◌, IfOk, OnErr, [], ◌∷◌, slice_set};
ghost use Rattle.kn_base.specs.Memory.{Memory};
ghost use Rattle.kernel_tables.specs.declared.row.Row.TheVariants.{Free, Used};
ghost use Rattle.kernel_tables.specs.declared.inode.InodeKind.TheVariants.{Console};
ghost use Rattle.kernel_tables.specs.Kernel.{Kernel, kernel_of, Sized, IsSized, inode_count, inode_at};
ghost use Rattle.kernel_tables.specs.Blocks.{inode_block, ChangesBlocks};
ghost use Rattle.file_tables.specs.Rows.{IsInodeAt, InodesGood, row_of};
ghost use Rattle.file_tables.specs.Roots.{named_by, ExchangesRoots};
ghost use Rattle.file_tables.specs.Numbers.{TakesInode, NoInodeFree};
ghost use Rattle.file_tables.specs.Numbers as numbers;

use super::free_numbers::{Full, least_free_inode};
use kernel_tables::{Inode, InodeKind, Row, inode_entry, set_inode_entry};
use kn_base::Store;

/// The inode of a number below 1,024, or None where the number is free.
pub fn inode_of<T: Store>(store: &T, number: u32) -> Option<Inode>
    requires sized { Sized (kernel_of (T.memory store.now)) }
    requires good { InodesGood (kernel_of (T.memory store.now)).inodes }
    requires number { number < inode_count }
    ensures { inode_at (kernel_of (T.memory store.now)) number ≡ row_of result }
{
    match inode_entry(store, number) {
        Row::Used(inode) => Some(inode),
        Row::Free | Row::Unspelled => None,
    }
}

/// Writes the inode of a number below 1,024: the console at 0 alone, and at 1 the root directory, which is its own parent.
pub fn set_inode<T: Store>(store: &mut T, number: u32, inode: Inode)
    requires sized { Sized (kernel_of (T.memory store.old)) }
    requires good { InodesGood (kernel_of (T.memory store.old)).inodes }
    requires number { number < inode_count }
    requires right { IsInodeAt number inode }
    ensures written { let old = kernel_of (T.memory store.old) in kernel_of (T.memory store.new) ≡ record old { inodes = slice_set old.inodes number (Used inode) } }
    ensures roots { ExchangesRoots (kernel_of (T.memory store.old)) (kernel_of (T.memory store.new)) number (Used inode) }
    ensures good { InodesGood (kernel_of (T.memory store.new)).inodes }
    ensures blocks { ChangesBlocks (T.blocks store.old) (T.blocks store.new) (inode_block number ∷ []) }
    ensures keeps { T.keeps store.old store.new }
{
    set_inode_entry(store, number, Row::Used(inode));
}

// An inode of a kind that holds nothing and that nothing names.
fn fresh_inode(kind: InodeKind) -> Inode
    ensures { result ≡ numbers.fresh_inode kind }
{
    Inode {
        kind,
        length: 0,
        entries: 0,
        opens: 0,
        root: 0,
        parent: 0,
        start: 0,
    }
}

/// A new inode of a file, a directory or a pipe, which holds nothing and which nothing names, at the least free number. It is
/// Full exactly where no number is free.
pub fn new_inode<T: Store>(store: &mut T, kind: InodeKind) -> Result<u32, Full>
    requires sized { Sized (kernel_of (T.memory store.old)) }
    requires good { InodesGood (kernel_of (T.memory store.old)).inodes }
    requires kind { kind ≢ Console }
    ensures taken { IfOk result (TakesInode (kernel_of (T.memory store.old)) (kernel_of (T.memory store.new)) kind) }
    ensures full { OnErr result (NoInodeFree (kernel_of (T.memory store.old)) (kernel_of (T.memory store.new))) }
    ensures roots { named_by (kernel_of (T.memory store.new)).inodes ≡ named_by (kernel_of (T.memory store.old)).inodes }
    ensures good { InodesGood (kernel_of (T.memory store.new)).inodes }
    ensures blocks { IfOk result (λ number. ChangesBlocks (T.blocks store.old) (T.blocks store.new) (inode_block number ∷ [])) }
    ensures no_block { OnErr result (ChangesBlocks (T.blocks store.old) (T.blocks store.new) []) }
    ensures keeps { T.keeps store.old store.new }
{
    match least_free_inode(store) {
        Some(number) => {
            set_inode_entry(store, number, Row::Used(fresh_inode(kind)));
            Ok(number)
        }
        None => Err(Full),
    }
}

/// Frees an inode number from 2 on.
pub fn free_inode<T: Store>(store: &mut T, number: u32)
    requires sized { Sized (kernel_of (T.memory store.old)) }
    requires good { InodesGood (kernel_of (T.memory store.old)).inodes }
    requires low { 2 ≤ number }
    requires number { number < inode_count }
    ensures written { let old = kernel_of (T.memory store.old) in kernel_of (T.memory store.new) ≡ record old { inodes = slice_set old.inodes number Free } }
    ensures roots { ExchangesRoots (kernel_of (T.memory store.old)) (kernel_of (T.memory store.new)) number Free }
    ensures good { InodesGood (kernel_of (T.memory store.new)).inodes }
    ensures blocks { ChangesBlocks (T.blocks store.old) (T.blocks store.new) (inode_block number ∷ []) }
    ensures keeps { T.keeps store.old store.new }
{
    set_inode_entry(store, number, Row::Free);
}
