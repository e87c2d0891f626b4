//! Whole writes, as the line of write has them.

ghost use Rattle.std.specs.Prelude.{◌≡◌, ℕ, ◌+◌, ◌-◌, ◌<◌, ◌≤◌, length, take};
ghost use Rattle.kn_base.specs.Memory.{Memory};
ghost use Rattle.kernel_tables.specs.declared.inode.Inode.{Inode};
ghost use Rattle.kernel_tables.specs.Kernel.{Kernel, kernel_of, Sized, IsSized, inode_count};
ghost use Rattle.file_trees.specs.Good.{FilesGood};
ghost use Rattle.file_domain.specs.Good.{IsFileAt};
ghost use Rattle.file_domain.specs.Effects.{Writes, WritesPart};

use crate::growing::grow;
use crate::writing::put_all;
use file_tables::{Inode, inode_of};
use kn_base::Store;
use unix_model::Errno;

// The first bytes, at most so many.
fn front(bytes: &[u8], count: u32) -> &[u8]
    ensures first { result.now ≡ take count bytes.now }
    ensures few { length result.now ≤ count }
{
    if (count as usize) < bytes.len() {
        &bytes[..count as usize]
    } else {
        bytes
    }
}

// Writes bytes that end within the greatest length of a file. Where they end past its length it first gets longer, for which there
// may be no room.
fn write_part<T: Store>(
    store: &mut T,
    file: u32,
    inode: Inode,
    at: u32,
    part: &[u8],
) -> Result<u32, Errno>
    requires good { FilesGood (kernel_of (T.memory store.old)) }
    requires number { file < inode_count }
    requires file { IsFileAt (kernel_of (T.memory store.old)) file inode }
    requires below { at < 4194304 }
    requires most { at + length part.now ≤ 4194304 }
    ensures written { WritesPart (kernel_of (T.memory store.old)) (kernel_of (T.memory store.new)) file inode at part.now result }
    ensures keeps { T.keeps store.old store.new }
{
    let count = part.len() as u32;
    if at + count <= inode.length {
        put_all(store, file, at, part);
        return Ok(count);
    }
    match grow(store, file, inode, at + count) {
        Ok(()) => {
            put_all(store, file, at, part);
            Ok(count)
        }
        Err(errno) => Err(errno),
    }
}

/// Writes bytes to a file from a place on, over what stands there and past its end, and answers how many: those past the greatest
/// length, 4,194,304, are cut off. A gap between the end and the place reads as zero. (POSIX.1 pwrite(2), narrowed: no bytes
/// change nothing, wherever they would begin.) EFBIG comes where none of the bytes has a place, and else ENOSPC where the state with
/// all of them has no room; nothing has changed then.
pub fn write_at<T: Store>(store: &mut T, file: u32, at: u32, from: &[u8]) -> Result<u32, Errno>
    requires good { FilesGood (kernel_of (T.memory store.old)) }
    requires number { file < inode_count }
    requires file { (inode : Inode) × IsFileAt (kernel_of (T.memory store.old)) file inode }
    ensures written { (inode : Inode) → IsFileAt (kernel_of (T.memory store.old)) file inode → Writes (kernel_of (T.memory store.old)) (kernel_of (T.memory store.new)) file inode at from.now result }
    ensures nothing { length from.now ≡ 0 → kernel_of (T.memory store.new) ≡ kernel_of (T.memory store.old) }
    ensures keeps { T.keeps store.old store.new }
{
    if from.is_empty() {
        return Ok(0);
    }
    if at >= 4194304 {
        return Err(Errno::Efbig);
    }
    let part = front(from, 4194304 - at);
    match inode_of(store, file) {
        Some(inode) => write_part(store, file, inode, at, part),
        None => Ok(0),
    }
}
