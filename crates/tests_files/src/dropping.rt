//! The drop of a file, which looks first whether nothing names it.

ghost use Rattle.std.specs.Prelude.{◌≡◌, ◌<◌, ◌≤◌, ℕ, [], None, IsTrue};
ghost use Rattle.kn_base.specs.Memory.{Memory};
ghost use Rattle.kernel_tables.specs.declared.inode.Inode.{Inode};
ghost use Rattle.kernel_tables.specs.Kernel.{Kernel, kernel_of, inode_count, description_count};
ghost use Rattle.kernel_machine.specs.Machine.{machine_of};
ghost use Rattle.kernel_machine.specs.View.{descriptions_in};
ghost use Rattle.unix_model.specs.Files.{places_of};
ghost use Rattle.unix_model.specs.Tables.{at};
ghost use Rattle.file_trees.specs.Good.{FilesGood};
ghost use Rattle.file_domain.specs.Dropping.{IsUnnamed};
ghost use Rattle.dir_domain.specs.Rows.{inode_seen};

use crate::guarded::is_file;
use file_domain::drop_file;
use file_tables::{InodeKind, description_of, inode_of};
use kn_base::Store;
use unix_model::Errno;

// Whether no directory with a place is at a number.
#[tactic(auto, using(crate::proofs::Unnamed::no_places))]
fn has_no_place<T: Store>(store: &T, number: u32) -> bool
    requires good { FilesGood (kernel_of (T.memory store.now)) }
    requires number { number < inode_count }
    ensures { IsTrue result → places_of (inode_seen (kernel_of (T.memory store.now)) number) ≡ [] }
{
    match inode_of(store, number) {
        Some(inode) => {
            if inode.kind != InodeKind::Dir {
                return true;
            }
            if inode.length == 0 {
                return true;
            }
            false
        }
        None => true,
    }
}

// Whether no directory has a place.
fn has_no_places<T: Store>(store: &T) -> bool
    requires good { FilesGood (kernel_of (T.memory store.now)) }
    ensures { IsTrue result → (number : ℕ) → number < inode_count → places_of (inode_seen (kernel_of (T.memory store.now)) number) ≡ [] }
{
    for number in 0..1024 {
        if !has_no_place(store, number) {
            return false;
        }
    }
    true
}

// Whether the number of a description is free.
#[tactic(auto, using(crate::proofs::Unnamed::no_description))]
fn is_free_description<T: Store>(store: &T, number: u16) -> bool
    requires good { FilesGood (kernel_of (T.memory store.now)) }
    requires number { number < description_count }
    ensures { IsTrue result → at (descriptions_in (machine_of (kernel_of (T.memory store.now)))) number ≡ None }
{
    match description_of(store, number) {
        Some(_description) => false,
        None => true,
    }
}

// Whether nothing is open.
fn is_nothing_open<T: Store>(store: &T) -> bool
    requires good { FilesGood (kernel_of (T.memory store.now)) }
    ensures { IsTrue result → (number : ℕ) → number < description_count → at (descriptions_in (machine_of (kernel_of (T.memory store.now)))) number ≡ None }
{
    for number in 0..2048 {
        if !is_free_description(store, number) {
            return false;
        }
    }
    true
}

// Whether a file has no entry and isn't open: its row says so, nothing at all is open, and no directory has a place.
fn is_unnamed<T: Store>(store: &T, number: u32) -> bool
    requires good { FilesGood (kernel_of (T.memory store.now)) }
    requires low { 2 ≤ number }
    requires number { number < inode_count }
    ensures { IsTrue result → (row : Inode) × IsUnnamed (kernel_of (T.memory store.now)) number row }
{
    match inode_of(store, number) {
        Some(inode) => {
            if inode.entries != 0 {
                return false;
            }
            if inode.opens != 0 {
                return false;
            }
            if !is_nothing_open(store) {
                return false;
            }
            has_no_places(store)
        }
        None => false,
    }
}

/// Drops a file by `drop_file`. EBADF where no file is there, and EBUSY where anything is open or any directory has a place.
pub fn drop_one<T: Store>(store: &mut T, file: u32) -> Result<(), Errno>
    requires good { FilesGood (kernel_of (T.memory store.old)) }
    ensures good { FilesGood (kernel_of (T.memory store.new)) }
{
    if !is_file(store, file) {
        return Err(Errno::Ebadf);
    }
    if file < 2 {
        return Err(Errno::Ebadf);
    }
    if !is_unnamed(store, file) {
        return Err(Errno::Ebusy);
    }
    drop_file(store, file);
    Ok(())
}
