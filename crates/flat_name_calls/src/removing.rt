//! The lines of rmdir and unlink.

ghost use Rattle.std.specs.Prelude.{◌≡◌, ◌<◌};
ghost use Rattle.unix_model.specs.NameCalls.{rmdir_line, unlink_line};
ghost use Rattle.unix_model.specs.Paths.{is_dots};
ghost use Rattle.unix_model.specs.State.{with_process};
ghost use Rattle.flat_files.specs.SpotView.{spot_of};
ghost use Rattle.flat_state.specs.ProcessView.{process_of};
ghost use Rattle.flat_state.specs.Settles.{Settles};
ghost use Rattle.flat_state.specs.StateView.{unix_of};

use flat_files::Spot;
use flat_state::{Process, State};
use std::alloc::Global;
use unix_model::{Errno, Turned};

/// Whether a path's last name is `.` or `..`.
#[tactic(auto, unfolding(unix_model::specs::Paths::is_dots))]
pub(crate) fn is_dots(spot: Spot) -> bool
    ensures { result ≡ is_dots (spot_of spot.entry) }
{
    spot.name == b".".as_slice() || spot.name == b"..".as_slice()
}

/// The line of rmdir(path).
#[tactic(auto, using(unix_model::proofs::TableLaws::tables_over))]
pub fn rmdir(state: &mut State, alloc: Global, slot: u8, process: Process, path: &[u8]) -> Turned
    requires { slot < 64 }
    ensures { Settles (with_process (unix_of state.old) slot (process_of process)) slot (process_of process) (rmdir_line (with_process (unix_of state.old) slot (process_of process)) slot (process_of process) path.now) (unix_of state.new) result }
{
    let spot = match state.files.walk(path) {
        Ok(spot) => spot,
        Err(errno) => return state.refuse(slot, process, errno),
    };
    if spot.name.is_empty() {
        return state.refuse(slot, process, Errno::Ebusy);
    }
    if is_dots(spot) {
        return state.refuse(slot, process, Errno::Einval);
    }
    let inode = match spot.inode {
        Some(inode) => inode,
        None => return state.refuse(slot, process, Errno::Enoent),
    };
    if !state.files.is_directory(inode) {
        return state.refuse(slot, process, Errno::Enotdir);
    }
    if state.files.has_names(inode) {
        return state.refuse(slot, process, Errno::Enotempty);
    }
    state.files.remove(alloc, spot, inode);
    state.reply(slot, process, 0)
}

/// The line of unlink(path).
#[tactic(auto, using(unix_model::proofs::TableLaws::tables_over))]
pub fn unlink(state: &mut State, alloc: Global, slot: u8, process: Process, path: &[u8]) -> Turned
    requires { slot < 64 }
    ensures { Settles (with_process (unix_of state.old) slot (process_of process)) slot (process_of process) (unlink_line (with_process (unix_of state.old) slot (process_of process)) slot (process_of process) path.now) (unix_of state.new) result }
{
    let spot = match state.files.walk(path) {
        Ok(spot) => spot,
        Err(errno) => return state.refuse(slot, process, errno),
    };
    let inode = match spot.inode {
        Some(inode) => inode,
        None => return state.refuse(slot, process, Errno::Enoent),
    };
    if state.files.is_directory(inode) {
        return state.refuse(slot, process, Errno::Eperm);
    }
    state.files.remove(alloc, spot, inode);
    state.reply(slot, process, 0)
}
