//! Files get another length, as the line of ftruncate has it.

ghost use Rattle.std.specs.Prelude.{◌≡◌, ℕ, ◌<◌, ◌≤◌};
ghost use Rattle.kn_base.specs.Memory.{Memory};
ghost use Rattle.kernel_tables.specs.declared.inode.Inode.{Inode};
ghost use Rattle.kernel_tables.specs.Kernel.{Kernel, kernel_of, Sized, IsSized, inode_count};
ghost use Rattle.file_trees.specs.Good.{FilesGood};
ghost use Rattle.file_domain.specs.Good.{IsFileAt};
ghost use Rattle.file_domain.specs.Cutting.{Truncates};

use crate::cutting::shrink;
use crate::growing::grow;
use file_tables::{Inode, inode_of};
use kn_base::Store;
use unix_model::Errno;

// Gives a file a length up to the greatest one.
fn set_length<T: Store>(store: &mut T, file: u32, inode: Inode, length: u32) -> Result<(), Errno>
    requires good { FilesGood (kernel_of (T.memory store.old)) }
    requires number { file < inode_count }
    requires file { IsFileAt (kernel_of (T.memory store.old)) file inode }
    requires most { length ≤ 4194304 }
    ensures truncated { Truncates (kernel_of (T.memory store.old)) (kernel_of (T.memory store.new)) file inode length result }
    ensures keeps { T.keeps store.old store.new }
{
    if length < inode.length {
        shrink(store, file, inode, length);
        return Ok(());
    }
    match grow(store, file, inode, length) {
        Ok(()) => Ok(()),
        Err(errno) => Err(errno),
    }
}

/// Cuts a file to a length in bytes, or makes it longer with zeros behind its bytes. No page past the new end is left. (POSIX.1
/// ftruncate(2), narrowed: a file has at most 4,194,304 bytes.) EFBIG comes where the length is greater, and else ENOSPC where the
/// state with the file of that length has no room; nothing has changed then.
pub fn truncate<T: Store>(store: &mut T, file: u32, length: u32) -> Result<(), Errno>
    requires good { FilesGood (kernel_of (T.memory store.old)) }
    requires number { file < inode_count }
    requires file { (inode : Inode) × IsFileAt (kernel_of (T.memory store.old)) file inode }
    ensures truncated { (inode : Inode) → IsFileAt (kernel_of (T.memory store.old)) file inode → Truncates (kernel_of (T.memory store.old)) (kernel_of (T.memory store.new)) file inode length result }
    ensures keeps { T.keeps store.old store.new }
{
    if length > 4194304 {
        return Err(Errno::Efbig);
    }
    match inode_of(store, file) {
        Some(inode) => set_length(store, file, inode, length),
        None => Ok(()),
    }
}
