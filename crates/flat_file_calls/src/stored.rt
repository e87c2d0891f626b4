//! Changes of what files and pipes hold, in place.

ghost use Rattle.std.specs.Prelude.{◌≡◌, ◌+◌, ◌++◌, ◌<◌, ◌≤◌, None, OnOk, length};
ghost use Rattle.unix_model.specs.FileCalls.{overwritten, resized};
ghost use Rattle.unix_model.specs.Files as model;
ghost use Rattle.unix_model.specs.Tables.{at, with_at};
ghost use Rattle.flat_files.specs.FilesView.{files_of};
ghost use Rattle.flat_file_calls.specs.Held.{piped_bytes, stored_bytes};

use flat_files::{Contents, Files, Inode, Pipe};
use std::alloc::{AllocError, Global};

/// Takes the contents of a file out of its inode, or contents without bytes where it is no file.
fn take_contents(files: &mut Files, alloc: Global, inode: u16) -> Contents
    requires { inode < 1024 }
    ensures taken { result.bytes.items ≡ stored_bytes (at (files_of files.old).inodes inode) }
    ensures free { files_of files.new ≡ record (files_of files.old) { inodes = with_at (files_of files.old).inodes inode None } }
{
    match files.take_inode(inode) {
        Some(Inode::File(contents)) => contents,
        _ => Contents {
            bytes: Vec::new(alloc),
        },
    }
}

/// Takes a pipe out of its inode, or one without bytes where it is no pipe.
fn take_pipe(files: &mut Files, alloc: Global, inode: u16) -> Pipe
    requires { inode < 1024 }
    ensures taken { result.bytes.items ≡ piped_bytes (at (files_of files.old).inodes inode) }
    ensures free { files_of files.new ≡ record (files_of files.old) { inodes = with_at (files_of files.old).inodes inode None } }
{
    match files.take_inode(inode) {
        Some(Inode::Pipe(pipe)) => pipe,
        _ => Pipe {
            bytes: Vec::new(alloc),
        },
    }
}

/// Cuts a file to a length, or fills it with zeros up to it.
#[tactic(auto, using(unix_model::proofs::TableLaws::tables))]
pub(crate) fn resize(
    files: &mut Files,
    alloc: Global,
    inode: u16,
    size: u32,
) -> Result<(), AllocError>
    requires inside { inode < 1024 }
    requires size { size ≤ 4194304 }
    ensures { OnOk result (files_of files.new ≡ model.with_inode (files_of files.old) inode (model.File (resized (stored_bytes (at (files_of files.old).inodes inode)) size))) }
{
    let contents = take_contents(files, alloc, inode).resized(size)?;
    files.set_inode(inode, Inode::File(contents));
    Ok(())
}

/// Writes bytes to a file from a place on; a gap before it is zero.
#[tactic(auto, using(unix_model::proofs::TableLaws::tables))]
pub(crate) fn overwrite(
    files: &mut Files,
    alloc: Global,
    inode: u16,
    place: u32,
    part: &[u8],
) -> Result<(), AllocError>
    requires inside { inode < 1024 }
    requires size { place + length part.now ≤ 4194304 }
    ensures { OnOk result (files_of files.new ≡ model.with_inode (files_of files.old) inode (model.File (overwritten (stored_bytes (at (files_of files.old).inodes inode)) place part.now))) }
{
    let contents = take_contents(files, alloc, inode).overwritten(place, part)?;
    files.set_inode(inode, Inode::File(contents));
    Ok(())
}

/// Adds bytes to a pipe.
#[tactic(auto, using(unix_model::proofs::TableLaws::tables))]
pub(crate) fn append(
    files: &mut Files,
    alloc: Global,
    inode: u16,
    written: &[u8],
) -> Result<(), AllocError>
    requires inside { inode < 1024 }
    requires room { length (piped_bytes (at (files_of files.old).inodes inode)) + length written.now ≤ 4096 }
    ensures { OnOk result (files_of files.new ≡ model.with_inode (files_of files.old) inode (model.Pipe (piped_bytes (at (files_of files.old).inodes inode) ++ written.now))) }
{
    let pipe = take_pipe(files, alloc, inode).with_bytes(written)?;
    files.set_inode(inode, Inode::Pipe(pipe));
    Ok(())
}
