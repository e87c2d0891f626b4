//! The line of ftruncate.

ghost use Rattle.std.specs.Prelude.{◌≡◌, ◌<◌, None, IfOk};
ghost use Rattle.unix_model.specs.FileCalls.{ftruncate_line};
ghost use Rattle.unix_model.specs.State.{with_process};
ghost use Rattle.unix_model.specs.Tables.{at};
ghost use Rattle.flat_state.specs.ProcessView.{process_of};
ghost use Rattle.flat_state.specs.Settles.{Settles};
ghost use Rattle.flat_state.specs.StateView.{unix_of};

use crate::stored::resize;
use flat_files::Inode;
use flat_state::{Process, State};
use std::alloc::{AllocError, Global};
use unix_model::{Errno, Turned};

/// The line of ftruncate(descriptor, length).
pub fn ftruncate(
    state: &mut State,
    alloc: Global,
    slot: u8,
    process: Process,
    number: u32,
    size: u32,
) -> Result<Turned, AllocError>
    requires slot { slot < 64 }
    requires free { at (unix_of state.old).processes slot ≡ None }
    ensures { IfOk result (λ answer. Settles (with_process (unix_of state.old) slot (process_of process)) slot (process_of process) (ftruncate_line (with_process (unix_of state.old) slot (process_of process)) slot (process_of process) number size) (unix_of state.new) answer) }
{
    let file = match state.opened(&process, number) {
        Some(file) => file,
        None => return Ok(state.refuse(slot, process, Errno::Ebadf)),
    };
    let inode = file.description.inode;
    let pages = match state.files.inode(inode) {
        Some(Inode::File(contents)) => contents.bytes.len().div_ceil(4096) as u32,
        _ => return Ok(state.refuse(slot, process, Errno::Einval)),
    };
    if size > 4194304 {
        return Ok(state.refuse(slot, process, Errno::Efbig));
    }
    if !state.fits(&process, size.div_ceil(4096), pages) {
        return Ok(state.refuse(slot, process, Errno::Enospc));
    }
    resize(&mut state.files, alloc, inode, size)?;
    Ok(state.reply(slot, process, 0))
}
