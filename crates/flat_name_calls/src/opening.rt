//! The line of open.

ghost use Rattle.std.specs.Prelude.{◌≡◌, ◌<◌, ℕ, List, None, Some, IfOk};
ghost use Rattle.unix_model.specs.Enter.{has_flag};
ghost use Rattle.unix_model.specs.NameCalls.{open_line, opening as opened_description, opens_to_change, opens_to_write, with_opened, with_truncated};
ghost use Rattle.unix_model.specs.Paths as model_paths;
ghost use Rattle.unix_model.specs.Process as model;
ghost use Rattle.unix_model.specs.State.{with_phase, with_process};
ghost use Rattle.unix_model.specs.Tables.{at};
ghost use Rattle.flat_files.specs.InodeView.{description_of};
ghost use Rattle.flat_files.specs.SpotView.{spot_of};
ghost use Rattle.flat_name_calls.specs.Opening.{open_spot};
ghost use Rattle.flat_state.specs.ProcessView.{process_of};
ghost use Rattle.flat_state.specs.Settles.{Settles};
ghost use Rattle.flat_state.specs.StateView.{unix_of};

use crate::making::made;
use flat_files::{Contents, Description, Inode, Spot, is_slashed};
use flat_state::{Process, State};
use std::alloc::{AllocError, Global};
use unix_model::{Errno, Turned};

/// What an open works with: its flags, the descriptor that it answers, and the number of its description.
#[derive(Clone, Copy)]
pub(crate) struct Opening {
    pub flags: u32,
    pub descriptor: u32,
    pub number: u16,
    ghost inside: { descriptor < 32 },
    ghost below: { number < 2048 },
}

impl Opening {
    /// Whether the flags have O_CREAT.
    fn creates(self) -> bool
        ensures { result ≡ has_flag self.flags 16 }
    {
        self.flags & 16 != 0
    }

    /// Whether the flags have O_EXCL.
    fn excludes(self) -> bool
        ensures { result ≡ has_flag self.flags 32 }
    {
        self.flags & 32 != 0
    }

    /// Whether the flags have O_TRUNC.
    fn truncates(self) -> bool
        ensures { result ≡ has_flag self.flags 64 }
    {
        self.flags & 64 != 0
    }

    /// Whether the flags ask to write.
    fn writes(self) -> bool
        ensures { result ≡ opens_to_write self.flags }
    {
        self.flags % 4 != 0
    }

    /// Whether the flags ask to write, create or truncate.
    fn changes(self) -> bool
        ensures { result ≡ opens_to_change self.flags }
    {
        self.writes() || self.creates() || self.truncates()
    }

    /// The description that is opened of an inode.
    fn description(self, inode: u16) -> Description
        requires { inode < 1024 }
        ensures { description_of result ≡ opened_description self.flags inode }
    {
        Description {
            inode,
            readable: self.flags % 4 != 1,
            writable: self.writes(),
            append: self.flags & 8 != 0,
            offset: 0,
        }
    }
}

/// Cuts a file to no bytes, where that is asked.
fn truncate(state: &mut State, alloc: Global, opening: Opening, inode: u16)
    requires { inode < 1024 }
    ensures { unix_of state.new ≡ with_truncated (unix_of state.old) opening.flags inode }
{
    if opening.truncates() {
        let bytes = Vec::new(alloc);
        state
            .files
            .set_inode(inode, Inode::File(Contents { bytes }));
    }
}

/// Opens a description of an inode, and answers its descriptor.
fn finish(state: &mut State, slot: u8, process: Process, opening: Opening, inode: u16) -> Turned
    requires slot { slot < 64 }
    requires inside { inode < 1024 }
    ensures state { unix_of state.new ≡ with_phase (with_opened (unix_of state.old) opening.number (opened_description opening.flags inode)) slot (model.with_descriptor (process_of process) opening.descriptor opening.number) (model.answered opening.descriptor) }
    ensures answer { result ≡ Turned.Worked }
{
    state
        .files
        .set_description(opening.number, opening.description(inode));
    let process = process.with_descriptor(opening.descriptor, opening.number);
    state.reply(slot, process, opening.descriptor)
}

/// The rest of the line of open, where the path names an inode. From there on the path makes no difference.
#[tactic(auto, using(unix_model::proofs::TableLaws::tables_over))]
fn open_there(
    state: &mut State,
    alloc: Global,
    slot: u8,
    process: Process,
    opening: Opening,
    inode: u16,
) -> Turned
    requires slot { slot < 64 }
    requires inside { inode < 1024 }
    ensures { (path : List ℕ) (spot : model_paths.Spot) → Settles (with_process (unix_of state.old) slot (process_of process)) slot (process_of process) (open_spot (with_process (unix_of state.old) slot (process_of process)) slot (process_of process) path opening.flags opening.descriptor opening.number spot (Some inode)) (unix_of state.new) result }
{
    if opening.creates() && opening.excludes() {
        return state.refuse(slot, process, Errno::Eexist);
    }
    if state.files.is_directory(inode) && opening.changes() {
        return state.refuse(slot, process, Errno::Eisdir);
    }
    truncate(state, alloc, opening, inode);
    finish(state, slot, process, opening, inode)
}

/// The rest of the line of open, where nothing stands at the path.
fn open_new(
    state: &mut State,
    alloc: Global,
    slot: u8,
    process: Process,
    path: &[u8],
    opening: Opening,
    spot: Spot,
) -> Result<Turned, AllocError>
    requires slot { slot < 64 }
    requires free { at (unix_of state.old).processes slot ≡ None }
    ensures { IfOk result (λ answer. Settles (with_process (unix_of state.old) slot (process_of process)) slot (process_of process) (open_spot (with_process (unix_of state.old) slot (process_of process)) slot (process_of process) path.now opening.flags opening.descriptor opening.number (spot_of spot.entry) None) (unix_of state.new) answer) }
{
    if !opening.creates() {
        return Ok(state.refuse(slot, process, Errno::Enoent));
    }
    if is_slashed(path) {
        return Ok(state.refuse(slot, process, Errno::Enotdir));
    }
    let inode = match made(state, &process, spot) {
        Ok(inode) => inode,
        Err(errno) => return Ok(state.refuse(slot, process, errno)),
    };
    let bytes = Vec::new(alloc);
    state
        .files
        .make(alloc, spot, inode, Inode::File(Contents { bytes }))?;
    Ok(finish(state, slot, process, opening, inode))
}

/// The line of open(path, flags).
pub fn open(
    state: &mut State,
    alloc: Global,
    slot: u8,
    process: Process,
    path: &[u8],
    flags: u32,
) -> Result<Turned, AllocError>
    requires slot { slot < 64 }
    requires free { at (unix_of state.old).processes slot ≡ None }
    ensures { IfOk result (λ answer. Settles (with_process (unix_of state.old) slot (process_of process)) slot (process_of process) (open_line (with_process (unix_of state.old) slot (process_of process)) slot (process_of process) path.now flags) (unix_of state.new) answer) }
{
    let descriptor = match process.lowest_closed() {
        Some(descriptor) => descriptor,
        None => return Ok(state.refuse(slot, process, Errno::Emfile)),
    };
    let number = match state.files.free_description() {
        Some(number) => number,
        None => return Ok(state.refuse(slot, process, Errno::Enfile)),
    };
    let spot = match state.files.walk(path) {
        Ok(spot) => spot,
        Err(errno) => return Ok(state.refuse(slot, process, errno)),
    };
    let opening = Opening {
        flags,
        descriptor,
        number,
    };
    match spot.inode {
        Some(inode) => Ok(open_there(state, alloc, slot, process, opening, inode)),
        None => open_new(state, alloc, slot, process, path, opening, spot),
    }
}
