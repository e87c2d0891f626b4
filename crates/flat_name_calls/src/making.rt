//! New inodes at names, and the line of mkdir.

ghost use Rattle.std.specs.Prelude.{◌≡◌, ℕ, ◌<◌, [], None, Some, IfOk};
ghost use Rattle.unix_model.specs.Files.{Inode as ModelInode, inode_pages, is_full, places_of};
ghost use Rattle.unix_model.specs.NameCalls.{made, mkdir_line};
ghost use Rattle.flat_name_calls.specs.Making.{IsNewNumber};
ghost use Rattle.unix_model.specs.State.{with_process};
ghost use Rattle.unix_model.specs.Tables.{at};
ghost use Rattle.flat_files.specs.SpotView.{spot_of};
ghost use Rattle.flat_state.specs.ProcessView.{process_of};
ghost use Rattle.flat_state.specs.Settles.{Settles};
ghost use Rattle.flat_state.specs.StateView.{unix_of};

use flat_files::{Directory, Inode, Spot};
use flat_state::{Process, State};
use std::alloc::{AllocError, Global};
use unix_model::{Errno, Turned};

/// The number of a new inode without names and pages, where there is one, and a place and room for it.
pub fn made(state: &State, process: &Process, spot: Spot) -> Result<u16, Errno>
    ensures made { (slot : ℕ) (new : ModelInode) → slot < 64 → at (unix_of state.now).processes slot ≡ None → places_of (Some new) ≡ [] → inode_pages (Some new) ≡ 0 → result ≡ made (with_process (unix_of state.now) slot (process_of process.now)) (spot_of spot.entry) new }
    ensures free { IfOk result (IsNewNumber (unix_of state.now).files spot.entry.directory) }
{
    let inode = match state.files.free_inode() {
        Some(inode) => inode,
        None => return Err(Errno::Enospc),
    };
    if state.files.is_full(spot.directory) {
        return Err(Errno::Enospc);
    }
    let more = state.files.pages_with_name(spot.directory);
    if !state.fits(process, more, state.files.inode_pages(spot.directory)) {
        return Err(Errno::Enospc);
    }
    Ok(inode)
}

/// The line of mkdir(path).
pub fn mkdir(
    state: &mut State,
    alloc: Global,
    slot: u8,
    process: Process,
    path: &[u8],
) -> Result<Turned, AllocError>
    requires slot { slot < 64 }
    requires free { at (unix_of state.old).processes slot ≡ None }
    ensures { IfOk result (λ answer. Settles (with_process (unix_of state.old) slot (process_of process)) slot (process_of process) (mkdir_line (with_process (unix_of state.old) slot (process_of process)) slot (process_of process) path.now) (unix_of state.new) answer) }
{
    let spot = match state.files.walk(path) {
        Ok(spot) => spot,
        Err(errno) => return Ok(state.refuse(slot, process, errno)),
    };
    if spot.inode.is_some() {
        return Ok(state.refuse(slot, process, Errno::Eexist));
    }
    let inode = match made(state, &process, spot) {
        Ok(inode) => inode,
        Err(errno) => return Ok(state.refuse(slot, process, errno)),
    };
    let directory = Directory {
        parent: spot.directory,
        places: Vec::new(alloc),
    };
    state
        .files
        .make(alloc, spot, inode, Inode::Directory(directory))?;
    Ok(state.reply(slot, process, 0))
}
