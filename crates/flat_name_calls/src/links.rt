//! The line of link.

ghost use Rattle.std.specs.Prelude.{◌≡◌, ◌<◌, None, IfOk};
ghost use Rattle.unix_model.specs.NameCalls.{link_line};
ghost use Rattle.unix_model.specs.State.{with_process};
ghost use Rattle.unix_model.specs.Tables.{at};
ghost use Rattle.flat_files.specs.SpotView.{spot_of};
ghost use Rattle.flat_state.specs.ProcessView.{process_of};
ghost use Rattle.flat_state.specs.Settles.{Settles};
ghost use Rattle.flat_state.specs.StateView.{unix_of};

use flat_files::{Entry, is_slashed};
use flat_state::{Process, State};
use std::alloc::{AllocError, Global};
use unix_model::{Errno, Turned};

/// The line of link(old, new).
pub fn link(
    state: &mut State,
    alloc: Global,
    slot: u8,
    process: Process,
    old: &[u8],
    new: &[u8],
) -> Result<Turned, AllocError>
    requires slot { slot < 64 }
    requires free { at (unix_of state.old).processes slot ≡ None }
    ensures { IfOk result (λ answer. Settles (with_process (unix_of state.old) slot (process_of process)) slot (process_of process) (link_line (with_process (unix_of state.old) slot (process_of process)) slot (process_of process) old.now new.now) (unix_of state.new) answer) }
{
    let from = match state.files.walk(old) {
        Ok(from) => from,
        Err(errno) => return Ok(state.refuse(slot, process, errno)),
    };
    let inode = match from.inode {
        Some(inode) => inode,
        None => return Ok(state.refuse(slot, process, Errno::Enoent)),
    };
    if state.files.is_directory(inode) {
        return Ok(state.refuse(slot, process, Errno::Eperm));
    }
    let to = match state.files.walk(new) {
        Ok(to) => to,
        Err(errno) => return Ok(state.refuse(slot, process, errno)),
    };
    if to.inode.is_some() {
        return Ok(state.refuse(slot, process, Errno::Eexist));
    }
    if is_slashed(new) {
        return Ok(state.refuse(slot, process, Errno::Enotdir));
    }
    if state.files.is_full(to.directory) {
        return Ok(state.refuse(slot, process, Errno::Enospc));
    }
    let more = state.files.pages_with_name(to.directory);
    if !state.fits(&process, more, state.files.inode_pages(to.directory)) {
        return Ok(state.refuse(slot, process, Errno::Enospc));
    }
    let name = Vec::from_slice(alloc, to.name)?;
    state
        .files
        .add_name(alloc, to.directory, Entry { name, inode })?;
    Ok(state.reply(slot, process, 0))
}
