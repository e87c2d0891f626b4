//! Reading files.

ghost use Rattle.std.specs.Prelude.{◌≡◌, ℕ, ◌+◌, ◌-◌, ◌<◌, ◌≤◌, ◌^◌, Some, List, length};
ghost use Rattle.kn_base.specs.Memory.{Memory};
ghost use Rattle.kernel_tables.specs.declared.inode.Inode.{Inode};
ghost use Rattle.kernel_tables.specs.Kernel.{Kernel, kernel_of, Sized, IsSized, inode_count};
ghost use Rattle.kernel_machine.specs.Standing.{Standing};
ghost use Rattle.file_domain.specs.Good.{IsFileAt, bytes_at};
ghost use Rattle.file_domain.specs.Effects.{Reads};

use file_tables::inode_of;
use file_trees::read_tree;
use kn_base::Store;

// How many bytes there are from a place on, at most so many.
fn count_there(length: u32, at: u32, most: usize) -> u32
    ensures few { result ≤ most }
    ensures within { result ≤ length - at }
    ensures all { most ≤ length - at → result ≡ most }
    ensures rest { length - at ≤ most → result ≡ length - at }
{
    let left = length.saturating_sub(at);
    if most < left as usize {
        most as u32
    } else {
        left
    }
}

/// Reads the bytes of a file from a place on into the front of `into`, as many as there are and as it has room for, and answers
/// how many these are: 0 at the file's end and past it. Bytes that were never written are zero.
pub fn read_at<T: Store>(store: &T, file: u32, at: u32, into: &mut [u8]) -> u32
    requires standing { Standing (kernel_of (T.memory store.now)) }
    requires number { file < inode_count }
    requires file { (inode : Inode) × IsFileAt (kernel_of (T.memory store.now)) file inode }
    ensures read { (bytes : List ℕ) → bytes_at (kernel_of (T.memory store.now)) file ≡ Some bytes → Reads bytes at into.old into.new result }
    ensures few { result ≤ length into.old }
{
    match inode_of(store, file) {
        Some(inode) => {
            let count = count_there(inode.length, at, into.len());
            if count > 0 {
                read_tree(store, inode.root, at, &mut into[..count as usize]);
            }
            count
        }
        None => 0,
    }
}
