//! A machine with files, and calls on files that look first whether a file is there.

ghost use Rattle.std.specs.Prelude.{◌≡◌, ◌≢◌, ℕ, ◌<◌, ◌≤◌, ◌+◌, ◌%◌, IfOk, IsTrue, length};
ghost use Rattle.kn_base.specs.Memory.{Memory};
ghost use Rattle.kernel_tables.specs.declared.inode.Inode.{Inode};
ghost use Rattle.kernel_tables.specs.declared.inode.InodeKind.TheVariants.{Pipe, Console};
ghost use Rattle.kernel_tables.specs.Kernel.{Kernel, kernel_of, first_page, node_count, inode_count};
ghost use Rattle.obj_store.specs.Store.{ram_memory};
ghost use Rattle.space_bank.specs.Bank.{BankGood};
ghost use Rattle.file_trees.specs.Good.{FilesGood};
ghost use Rattle.file_domain.specs.Good.{IsFileAt};

use file_domain::{read_at, truncate, write_at};
use file_tables::{InodeKind, inode_of, new_inode};
use first_machine::first_machine;
use kernel_tables::first_bank_page;
use kn_base::Store;
use obj_store::{NoMemory, RamStore};
use space_bank::{promised, taken_of};
use std::alloc::Global;
use unix_model::Errno;

/// The first machine of so many pages, with 100 turns of each process to a round. One page is promised, and none is taken.
#[tactic(auto, unfolding(kernel_tables::specs::Kernel::first_page))]
pub fn machine_of(alloc: Global, pages: u32) -> Result<RamStore, NoMemory>
    requires least { 64 ≤ pages }
    requires most { pages ≤ 16384 }
    requires multiple { pages % 64 ≡ 0 }
    ensures good { IfOk result (λ store. FilesGood (kernel_of (ram_memory store))) }
{
    let all_pages = first_bank_page(pages) + pages;
    match RamStore::new(alloc, all_pages, 4 * pages + 1296) {
        Ok(mut store) => {
            first_machine(&mut store, pages, 100);
            Ok(store)
        }
        Err(NoMemory) => Err(NoMemory),
    }
}

/// The number of a new file or directory without a length, or None where no number is free.
pub fn add_inode<T: Store>(store: &mut T, kind: InodeKind) -> Option<u32>
    requires good { FilesGood (kernel_of (T.memory store.old)) }
    requires no_pipe { kind ≢ Pipe }
    requires no_console { kind ≢ Console }
    ensures good { FilesGood (kernel_of (T.memory store.new)) }
{
    match new_inode(store, kind) {
        Ok(number) => Some(number),
        Err(_full) => None,
    }
}

/// The number of a new file without bytes, or None where no number is free.
pub fn add_file<T: Store>(store: &mut T) -> Option<u32>
    requires good { FilesGood (kernel_of (T.memory store.old)) }
    ensures good { FilesGood (kernel_of (T.memory store.new)) }
{
    add_inode(store, InodeKind::File)
}

/// Whether a file is at a number.
pub fn is_file<T: Store>(store: &T, number: u32) -> bool
    requires good { FilesGood (kernel_of (T.memory store.now)) }
    ensures below { IsTrue result → number < inode_count }
    ensures file { IsTrue result → (inode : Inode) × IsFileAt (kernel_of (T.memory store.now)) number inode }
{
    if number >= 1024 {
        return false;
    }
    match inode_of(store, number) {
        Some(inode) => inode.kind == InodeKind::File,
        None => false,
    }
}

/// How many bytes the file or directory of a number has. EBADF where no inode is there.
pub fn length_of<T: Store>(store: &T, number: u32) -> Result<u32, Errno>
    requires good { FilesGood (kernel_of (T.memory store.now)) }
{
    if number >= 1024 {
        return Err(Errno::Ebadf);
    }
    match inode_of(store, number) {
        Some(inode) => Ok(inode.length),
        None => Err(Errno::Ebadf),
    }
}

/// Writes bytes to a file that is there, which it is then too.
pub fn put<T: Store>(store: &mut T, file: u32, at: u32, from: &[u8]) -> Result<u32, Errno>
    requires good { FilesGood (kernel_of (T.memory store.old)) }
    requires below { file < inode_count }
    requires file { (inode : Inode) × IsFileAt (kernel_of (T.memory store.old)) file inode }
    ensures good { FilesGood (kernel_of (T.memory store.new)) }
    ensures file { (inode : Inode) × IsFileAt (kernel_of (T.memory store.new)) file inode }
{
    write_at(store, file, at, from)
}

/// Writes bytes to a file by `write_at`. EBADF where no file is there.
pub fn write<T: Store>(store: &mut T, file: u32, at: u32, from: &[u8]) -> Result<u32, Errno>
    requires good { FilesGood (kernel_of (T.memory store.old)) }
    ensures good { FilesGood (kernel_of (T.memory store.new)) }
{
    if !is_file(store, file) {
        return Err(Errno::Ebadf);
    }
    put(store, file, at, from)
}

/// Gives a file another length by `truncate`. EBADF where no file is there.
pub fn cut<T: Store>(store: &mut T, file: u32, length: u32) -> Result<(), Errno>
    requires good { FilesGood (kernel_of (T.memory store.old)) }
    ensures good { FilesGood (kernel_of (T.memory store.new)) }
{
    if !is_file(store, file) {
        return Err(Errno::Ebadf);
    }
    truncate(store, file, length)
}

/// Reads bytes of a file by `read_at`. EBADF where no file is there.
pub fn read<T: Store>(store: &T, file: u32, at: u32, into: &mut [u8]) -> Result<u32, Errno>
    requires good { FilesGood (kernel_of (T.memory store.now)) }
{
    if !is_file(store, file) {
        return Err(Errno::Ebadf);
    }
    Ok(read_at(store, file, at, into))
}

/// How many pages are promised and taken.
#[derive(Clone, Copy, Debug, PartialEq, Eq)]
pub struct Pages {
    pub promised: u32,
    pub taken: u32,
}

/// How many pages are promised and taken.
pub fn pages_of<T: Store>(store: &T) -> Pages
    requires good { FilesGood (kernel_of (T.memory store.now)) }
{
    Pages {
        promised: promised(store),
        taken: taken_of(store).pages,
    }
}
