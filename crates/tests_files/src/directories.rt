//! Calls on directories that look first whether a directory is there, and whether what they are given is right.

ghost use Rattle.std.specs.Prelude.{◌≡◌, ℕ, ◌<◌, All, IsTrue, true};
ghost use Rattle.kn_base.specs.Memory.{Memory};
ghost use Rattle.kernel_tables.specs.declared.inode.InodeKind.TheVariants.{Pipe, Console};
ghost use Rattle.kernel_tables.specs.Kernel.{Kernel, kernel_of, inode_count};
ghost use Rattle.unix_model.specs.Files.{is_directory as is_directory_inode};
ghost use Rattle.unix_model.specs.Rules.{IsName, IsNameByte, is_named_kind};
ghost use Rattle.file_trees.specs.Good.{FilesGood};
ghost use Rattle.dir_domain.specs.Rows.{inode_seen};

use crate::guarded::add_inode;
use dir_domain::{add_name, entries_from, find_name, remove_name, replace_name};
use file_tables::{InodeKind, inode_of};
use kn_base::Store;
use unix_model::Errno;

/// The number of a new directory without places, or None where no number is free.
pub fn add_directory<T: Store>(store: &mut T) -> Option<u32>
    requires good { FilesGood (kernel_of (T.memory store.old)) }
    ensures good { FilesGood (kernel_of (T.memory store.new)) }
{
    add_inode(store, InodeKind::Dir)
}

/// Whether a directory is at a number.
#[tactic(auto, using(crate::proofs::Seen::directory_seen))]
pub fn is_directory<T: Store>(store: &T, number: u32) -> bool
    requires good { FilesGood (kernel_of (T.memory store.now)) }
    ensures { IsTrue result → is_directory_inode (inode_seen (kernel_of (T.memory store.now)) number) ≡ true }
{
    if number >= 1024 {
        return false;
    }
    match inode_of(store, number) {
        Some(inode) => inode.kind == InodeKind::Dir,
        None => false,
    }
}

// Whether a file or a directory is at a number.
#[tactic(auto, using(crate::proofs::Seen::named_seen))]
fn may_have_name<T: Store>(store: &T, number: u32) -> bool
    requires good { FilesGood (kernel_of (T.memory store.now)) }
    ensures { IsTrue result → is_named_kind (inode_seen (kernel_of (T.memory store.now)) number) ≡ true }
{
    if number >= 1024 {
        return false;
    }
    match inode_of(store, number) {
        Some(inode) => inode.kind == InodeKind::Dir || inode.kind == InodeKind::File,
        None => false,
    }
}

// Whether a byte may stand in a name: it is no NUL and no slash.
fn is_name_byte(byte: u8) -> bool
    ensures { IsTrue result → IsNameByte byte }
{
    byte != 0 && byte != b'/'
}

// Whether all bytes may stand in a name.
fn are_name_bytes(name: &[u8]) -> bool
    ensures { IsTrue result → All IsNameByte name.now }
{
    for byte in name {
        if !is_name_byte(*byte) {
            return false;
        }
    }
    true
}

// Whether bytes are a name that may be given here: one of at most two bytes doesn't begin with a dot.
fn is_name(name: &[u8]) -> bool
    ensures { IsTrue result → IsName name.now }
{
    if name.is_empty() || name.len() > 27 {
        return false;
    }
    if name.len() <= 2 && name[0] == 46 {
        return false;
    }
    are_name_bytes(name)
}

// The digit of a number at a place: 1 for the last one, 10 for the one before it.
fn digit(number: u32, place: u32) -> u8
    requires { 0 < place }
{
    b'0' + (number / place % 10) as u8
}

/// The name of a number below 10,000: `n0000`, `n0001` and so on.
pub fn numbered(number: u32) -> [u8; 5] {
    [
        b'n',
        digit(number, 1000),
        digit(number, 100),
        digit(number, 10),
        digit(number, 1),
    ]
}

/// Adds a name by `add_name`. ENOTDIR where no directory is there, and EINVAL where the name is none or a dot with at most one byte
/// behind it, or where no file or directory has the inode's number.
pub fn add<T: Store>(store: &mut T, dir: u32, name: &[u8], inode: u32) -> Result<(), Errno>
    requires good { FilesGood (kernel_of (T.memory store.old)) }
    ensures good { FilesGood (kernel_of (T.memory store.new)) }
{
    if !is_directory(store, dir) {
        return Err(Errno::Enotdir);
    }
    if !is_name(name) || !may_have_name(store, inode) {
        return Err(Errno::Einval);
    }
    add_name(store, dir, name, inode)
}

/// Takes a name away by `remove_name`. ENOTDIR where no directory is there.
pub fn remove<T: Store>(store: &mut T, dir: u32, name: &[u8]) -> Result<u32, Errno>
    requires good { FilesGood (kernel_of (T.memory store.old)) }
    ensures good { FilesGood (kernel_of (T.memory store.new)) }
{
    if !is_directory(store, dir) {
        return Err(Errno::Enotdir);
    }
    remove_name(store, dir, name)
}

/// Gives a name another inode by `replace_name`. ENOTDIR and EINVAL are as in `add`.
pub fn replace<T: Store>(store: &mut T, dir: u32, name: &[u8], inode: u32) -> Result<u32, Errno>
    requires good { FilesGood (kernel_of (T.memory store.old)) }
    ensures good { FilesGood (kernel_of (T.memory store.new)) }
{
    if !is_directory(store, dir) {
        return Err(Errno::Enotdir);
    }
    if !is_name(name) || !may_have_name(store, inode) {
        return Err(Errno::Einval);
    }
    replace_name(store, dir, name, inode)
}

/// The inode of a name by `find_name`, or None where no directory is there.
pub fn find<T: Store>(store: &T, dir: u32, name: &[u8]) -> Option<u32>
    requires good { FilesGood (kernel_of (T.memory store.now)) }
{
    if !is_directory(store, dir) {
        return None;
    }
    find_name(store, dir, name)
}

/// The entries from a place on by `entries_from`: how many bytes were written, and the next place. ENOTDIR where no directory is
/// there.
pub fn list<T: Store>(store: &T, dir: u32, place: u32, into: &mut [u8]) -> Result<(u32, u32), Errno>
    requires good { FilesGood (kernel_of (T.memory store.now)) }
{
    if !is_directory(store, dir) {
        return Err(Errno::Enotdir);
    }
    Ok(entries_from(store, dir, place, into))
}
