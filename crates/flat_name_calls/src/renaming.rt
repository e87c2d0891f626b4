//! The line of rename.

ghost use Rattle.std.specs.Prelude.{◌≡◌, ◌<◌, None, Some, IfOk, OnOk, false};
ghost use Rattle.unix_model.specs.Files as model;
ghost use Rattle.unix_model.specs.Files.{is_full, with_name, with_name_moved};
ghost use Rattle.unix_model.specs.NameCalls.{is_same, moved, rename_line};
ghost use Rattle.unix_model.specs.State.{with_process};
ghost use Rattle.unix_model.specs.Tables.{at};
ghost use Rattle.flat_files.specs.FilesView.{files_of};
ghost use Rattle.flat_files.specs.SpotView.{spot_of};
ghost use Rattle.flat_name_calls.specs.Renaming.{rename_apart, rename_inode, rename_end};
ghost use Rattle.flat_state.specs.ProcessView.{process_of};
ghost use Rattle.flat_state.specs.Settles.{Settles};
ghost use Rattle.flat_state.specs.StateView.{unix_of};

use crate::removing::is_dots;
use flat_files::{Entry, Files, Spot, is_slashed};
use flat_state::{Process, State};
use std::alloc::{AllocError, Global};
use unix_model::{Errno, Turned};

/// Moves an inode to a name where another one stands, which goes unless it lives on.
fn move_onto(
    files: &mut Files,
    alloc: Global,
    from: Spot,
    to: Spot,
    inode: u16,
    other: u16,
) -> Result<(), AllocError>
    requires inside { inode < 1024 }
    requires below { other < 1024 }
    ensures { OnOk result (files_of files.new ≡ model.with_inode_dropped (moved (with_name_moved (files_of files.old) to.entry.directory to.entry.name.now inode) (spot_of from.entry) (spot_of to.entry) inode) other) }
{
    files.move_name(alloc, to.directory, to.name, inode)?;
    files.move_inode(alloc, from, to, inode);
    files.drop_inode(other);
    Ok(())
}

/// Moves an inode to a name that isn't there yet, in a directory that isn't full.
fn move_anew(
    files: &mut Files,
    alloc: Global,
    from: Spot,
    to: Spot,
    inode: u16,
) -> Result<(), AllocError>
    requires inside { inode < 1024 }
    requires place { is_full (files_of files.old) to.directory ≡ false }
    ensures { OnOk result (files_of files.new ≡ moved (with_name (files_of files.old) to.entry.directory to.entry.name.now inode) (spot_of from.entry) (spot_of to.entry) inode) }
{
    let name = Vec::from_slice(alloc, to.name)?;
    files.add_name(alloc, to.directory, Entry { name, inode })?;
    files.move_inode(alloc, from, to, inode);
    Ok(())
}

/// The end of the line of rename, where another inode stands at the new name.
#[tactic(auto, using(unix_model::proofs::TableLaws::tables_over))]
fn rename_onto(
    state: &mut State,
    alloc: Global,
    slot: u8,
    process: Process,
    from: Spot,
    to: Spot,
    inode: u16,
    other: u16,
) -> Result<Turned, AllocError>
    requires slot { slot < 64 }
    requires inside { inode < 1024 }
    requires below { other < 1024 }
    ensures { IfOk result (λ answer. Settles (with_process (unix_of state.old) slot (process_of process)) slot (process_of process) (rename_end (with_process (unix_of state.old) slot (process_of process)) slot (process_of process) (spot_of from.entry) (spot_of to.entry) inode (Some other)) (unix_of state.new) answer) }
{
    let is_directory = state.files.is_directory(inode);
    if is_directory && !state.files.is_directory(other) {
        return Ok(state.refuse(slot, process, Errno::Enotdir));
    }
    if state.files.is_directory(other) && !is_directory {
        return Ok(state.refuse(slot, process, Errno::Eisdir));
    }
    if state.files.has_names(other) {
        return Ok(state.refuse(slot, process, Errno::Enotempty));
    }
    move_onto(&mut state.files, alloc, from, to, inode, other)?;
    Ok(state.reply(slot, process, 0))
}

/// The end of the line of rename, where nothing stands at the new name.
fn rename_anew(
    state: &mut State,
    alloc: Global,
    slot: u8,
    process: Process,
    from: Spot,
    to: Spot,
    inode: u16,
) -> Result<Turned, AllocError>
    requires slot { slot < 64 }
    requires free { at (unix_of state.old).processes slot ≡ None }
    requires inside { inode < 1024 }
    ensures { IfOk result (λ answer. Settles (with_process (unix_of state.old) slot (process_of process)) slot (process_of process) (rename_end (with_process (unix_of state.old) slot (process_of process)) slot (process_of process) (spot_of from.entry) (spot_of to.entry) inode None) (unix_of state.new) answer) }
{
    if state.files.is_full(to.directory) {
        return Ok(state.refuse(slot, process, Errno::Enospc));
    }
    let more = state.files.pages_with_name(to.directory);
    if !state.fits(&process, more, state.files.inode_pages(to.directory)) {
        return Ok(state.refuse(slot, process, Errno::Enospc));
    }
    move_anew(&mut state.files, alloc, from, to, inode)?;
    Ok(state.reply(slot, process, 0))
}

/// The rest of the line of rename, where the new name isn't the inode's already.
fn rename_apart(
    state: &mut State,
    alloc: Global,
    slot: u8,
    process: Process,
    from: Spot,
    to: Spot,
    inode: u16,
) -> Result<Turned, AllocError>
    requires slot { slot < 64 }
    requires free { at (unix_of state.old).processes slot ≡ None }
    requires inside { inode < 1024 }
    ensures { IfOk result (λ answer. Settles (with_process (unix_of state.old) slot (process_of process)) slot (process_of process) (rename_apart (with_process (unix_of state.old) slot (process_of process)) slot (process_of process) (spot_of from.entry) (spot_of to.entry) inode) (unix_of state.new) answer) }
{
    if state.files.is_directory(inode) && state.files.is_within(inode, to.directory) {
        return Ok(state.refuse(slot, process, Errno::Einval));
    }
    match to.inode {
        Some(other) => rename_onto(state, alloc, slot, process, from, to, inode, other),
        None => rename_anew(state, alloc, slot, process, from, to, inode),
    }
}

/// The rest of the line of rename, where the old name has this inode.
#[tactic(auto, using(unix_model::proofs::TableLaws::tables_over))]
fn rename_inode(
    state: &mut State,
    alloc: Global,
    slot: u8,
    process: Process,
    from: Spot,
    inode: u16,
    new: &[u8],
) -> Result<Turned, AllocError>
    requires slot { slot < 64 }
    requires free { at (unix_of state.old).processes slot ≡ None }
    requires inside { inode < 1024 }
    ensures { IfOk result (λ answer. Settles (with_process (unix_of state.old) slot (process_of process)) slot (process_of process) (rename_inode (with_process (unix_of state.old) slot (process_of process)) slot (process_of process) (spot_of from.entry) inode new.now) (unix_of state.new) answer) }
{
    let to = match state.files.walk(new) {
        Ok(to) => to,
        Err(errno) => return Ok(state.refuse(slot, process, errno)),
    };
    if to.name.is_empty() {
        return Ok(state.refuse(slot, process, Errno::Ebusy));
    }
    if is_dots(to) {
        return Ok(state.refuse(slot, process, Errno::Einval));
    }
    if is_slashed(new) && to.inode.is_none() && !state.files.is_directory(inode) {
        return Ok(state.refuse(slot, process, Errno::Enotdir));
    }
    if is_same(inode, to.inode) {
        return Ok(state.reply(slot, process, 0));
    }
    rename_apart(state, alloc, slot, process, from, to, inode)
}

/// Whether what stands at a name is this inode.
fn is_same(inode: u16, other: Option<u16>) -> bool
    ensures { result ≡ is_same inode other }
{
    match other {
        Some(other) => other == inode,
        None => false,
    }
}

/// The line of rename(old, new).
#[tactic(auto, using(unix_model::proofs::TableLaws::tables_over))]
pub fn rename(
    state: &mut State,
    alloc: Global,
    slot: u8,
    process: Process,
    old: &[u8],
    new: &[u8],
) -> Result<Turned, AllocError>
    requires slot { slot < 64 }
    requires free { at (unix_of state.old).processes slot ≡ None }
    ensures { IfOk result (λ answer. Settles (with_process (unix_of state.old) slot (process_of process)) slot (process_of process) (rename_line (with_process (unix_of state.old) slot (process_of process)) slot (process_of process) old.now new.now) (unix_of state.new) answer) }
{
    let from = match state.files.walk(old) {
        Ok(from) => from,
        Err(errno) => return Ok(state.refuse(slot, process, errno)),
    };
    if from.name.is_empty() {
        return Ok(state.refuse(slot, process, Errno::Ebusy));
    }
    if is_dots(from) {
        return Ok(state.refuse(slot, process, Errno::Einval));
    }
    match from.inode {
        Some(inode) => rename_inode(state, alloc, slot, process, from, inode, new),
        None => Ok(state.refuse(slot, process, Errno::Enoent)),
    }
}
