//! Bytes are taken from pipes and put to them.

ghost use Rattle.std.specs.Prelude.{◌≡◌, ℕ, true, ◌<◌, ◌≤◌, ◌+◌, if◌then◌else◌, [], ◌∷◌, length};
ghost use Rattle.kn_base.specs.Memory.{Memory};
ghost use Rattle.kernel_tables.specs.Blocks.{inode_block, ChangesBlocks};
ghost use Rattle.kernel_tables.specs.Kernel.{Kernel, kernel_of};
ghost use Rattle.kernel_machine.specs.Counts.{opens};
ghost use Rattle.kernel_machine.specs.Machine.{machine_of};
ghost use Rattle.kernel_machine.specs.Standing.{Standing};
ghost use Rattle.kernel_machine.specs.View.{descriptions_in, files_in};
ghost use Rattle.unix_model.specs.Files.{has_reader};
ghost use Rattle.pipe_domain.specs.Pipes.{MovesIn, MovesOut, PipeGood, Puts, Takes, pipe_at, queue};

use super::ends::{End, is_open};
use super::piped::Piped;
use super::rings::{RING, read_ring, write_ring};
use file_tables::{inode_of, set_inode};
use kernel_tables::{Inode, InodeKind};
use kn_base::{PageId, Store};
use unix_model::Errno;

// The inode of a pipe.
fn pipe_inode<T: Store>(store: &T, pipe: u32) -> Inode
    requires { PipeGood (kernel_of (T.memory store.now)) pipe }
    ensures inode { result ≡ pipe_at (kernel_of (T.memory store.now)) pipe }
    ensures size { result.length ≤ 4096 }
    ensures counted { result.opens ≡ opens (descriptions_in (machine_of (kernel_of (T.memory store.now)))) pipe }
{
    match inode_of(store, pipe) {
        Some(inode) => inode,
        None => unreachable!(),
    }
}

// Moves the first bytes of a pipe that isn't empty.
fn move_out<T: Store>(store: &mut T, pipe: u32, inode: Inode, into: &mut [u8]) -> u32
    requires good { PipeGood (kernel_of (T.memory store.old)) pipe }
    requires inode { inode ≡ pipe_at (kernel_of (T.memory store.old)) pipe }
    requires some { 0 < length (queue (kernel_of (T.memory store.old)) pipe) }
    requires few { length into.old ≤ 4096 }
    ensures moved { MovesOut (kernel_of (T.memory store.old)) (kernel_of (T.memory store.new)) pipe into.old into.new result }
    ensures standing { Standing (kernel_of (T.memory store.old)) → Standing (kernel_of (T.memory store.new)) }
    ensures good { PipeGood (kernel_of (T.memory store.new)) pipe }
    ensures blocks { ChangesBlocks (T.blocks store.old) (T.blocks store.new) (inode_block pipe ∷ []) }
    ensures keeps { T.keeps store.old store.new }
{
    let count = (into.len() as u32).min(inode.length);
    read_ring(
        store,
        PageId(inode.root),
        inode.start,
        &mut into[..count as usize],
    );
    let start = (inode.start + count) % RING;
    let length = inode.length - count;
    set_inode(
        store,
        pipe,
        Inode {
            length,
            start,
            ..inode
        },
    );
    count
}

// What is found where a pipe is empty, by whether it has a writer.
fn when_empty(writer: bool) -> Piped
    ensures { result ≡ (if writer then Piped.Wait else Piped.End) }
{
    if writer { Piped::Wait } else { Piped::End }
}

/// Moves the first bytes of a pipe into `into`, which has room for 1 to 4,096 bytes: as many as it has room for, or as the pipe
/// holds. It is End exactly where the pipe is empty and no description is open for writing to it, and Wait exactly where it is empty
/// and one is (POSIX.1 read(2) of a pipe, narrowed: who waits asks again).
pub fn take<T: Store>(store: &mut T, pipe: u32, into: &mut [u8]) -> Piped
    requires good { PipeGood (kernel_of (T.memory store.old)) pipe }
    requires some { 1 ≤ length into.old }
    requires few { length into.old ≤ 4096 }
    ensures taken { Takes (kernel_of (T.memory store.old)) (kernel_of (T.memory store.new)) pipe into.old into.new result }
    ensures standing { Standing (kernel_of (T.memory store.old)) → Standing (kernel_of (T.memory store.new)) }
    ensures good { PipeGood (kernel_of (T.memory store.new)) pipe }
    ensures blocks { ChangesBlocks (T.blocks store.old) (T.blocks store.new) (inode_block pipe ∷ []) }
    ensures keeps { T.keeps store.old store.new }
{
    let inode = pipe_inode(store, pipe);
    if inode.length == 0 {
        let writer = is_open(store, pipe, inode.opens, End::Writing);
        return when_empty(writer);
    }
    Piped::Moved(move_out(store, pipe, inode, into))
}

// Moves bytes that have room behind those of a pipe.
fn move_in<T: Store>(store: &mut T, pipe: u32, inode: Inode, from: &[u8])
    requires good { PipeGood (kernel_of (T.memory store.old)) pipe }
    requires inode { inode ≡ pipe_at (kernel_of (T.memory store.old)) pipe }
    requires reads { has_reader (files_in (machine_of (kernel_of (T.memory store.old)))) pipe ≡ true }
    requires fits { inode.length + length from.now ≤ 4096 }
    ensures moved { MovesIn (kernel_of (T.memory store.old)) (kernel_of (T.memory store.new)) pipe from.now (length from.now) }
    ensures standing { Standing (kernel_of (T.memory store.old)) → Standing (kernel_of (T.memory store.new)) }
    ensures good { PipeGood (kernel_of (T.memory store.new)) pipe }
    ensures blocks { ChangesBlocks (T.blocks store.old) (T.blocks store.new) (inode.root ∷ inode_block pipe ∷ []) }
    ensures keeps { T.keeps store.old store.new }
{
    let place = (inode.start + inode.length) % RING;
    write_ring(store, PageId(inode.root), place, from);
    let length = inode.length + from.len() as u32;
    set_inode(store, pipe, Inode { length, ..inode });
}

/// Moves 1 to 4,096 bytes behind those of a pipe, all of them. It is Wait exactly where fewer bytes are free than there are to be
/// moved, and never End (POSIX.1 write(2) to a pipe, narrowed: a write of up to PIPE_BUF bytes, which is all or nothing).
///
/// # Errors
///
/// `Epipe` exactly where no description is open for reading from the pipe. Nothing has changed then.
pub fn put<T: Store>(store: &mut T, pipe: u32, from: &[u8]) -> Result<Piped, Errno>
    requires good { PipeGood (kernel_of (T.memory store.old)) pipe }
    requires some { 1 ≤ length from.now }
    requires few { length from.now ≤ 4096 }
    ensures put { Puts (kernel_of (T.memory store.old)) (kernel_of (T.memory store.new)) pipe from.now result }
    ensures standing { Standing (kernel_of (T.memory store.old)) → Standing (kernel_of (T.memory store.new)) }
    ensures good { PipeGood (kernel_of (T.memory store.new)) pipe }
    ensures blocks { let old = kernel_of (T.memory store.old) in ChangesBlocks (T.blocks store.old) (T.blocks store.new) ((pipe_at old pipe).root ∷ inode_block pipe ∷ []) }
    ensures keeps { T.keeps store.old store.new }
{
    let inode = pipe_inode(store, pipe);
    if !is_open(store, pipe, inode.opens, End::Reading) {
        return Err(Errno::Epipe);
    }
    let free = (RING - inode.length) as usize;
    if from.len() > free {
        return Ok(Piped::Wait);
    }
    move_in(store, pipe, inode, from);
    Ok(Piped::Moved(from.len() as u32))
}
