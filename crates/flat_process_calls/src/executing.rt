//! The line of exec.

ghost use Rattle.std.specs.Prelude.{◌≡◌, ◌≤◌, ◌<◌, None, IfOk, length};
ghost use Rattle.unix_model.specs.Loading.{string_bytes};
ghost use Rattle.unix_model.specs.ProcessCalls.{exec_line};
ghost use Rattle.unix_model.specs.State.{with_process};
ghost use Rattle.unix_model.specs.Tables.{at};
ghost use Rattle.flat_memory.specs.StringsView.{strings_of};
ghost use Rattle.flat_state.specs.ProcessView.{process_of};
ghost use Rattle.flat_state.specs.Settles.{Settles};
ghost use Rattle.flat_state.specs.StateView.{unix_of};

use crate::find_program::load_at;
use crate::programs::Loading;
use flat_state::{Process, State};
use std::alloc::{AllocError, Global};
use unix_model::{Errno, Turned};

/// The line of exec(path, strings).
#[tactic(auto, using(unix_model::proofs::TableLaws::tables_over))]
pub fn exec(
    state: &mut State,
    alloc: Global,
    slot: u8,
    process: Process,
    path: &[u8],
    strings: &[Vec<u8>],
) -> Result<Turned, AllocError>
    requires slot { slot < 64 }
    requires free { at (unix_of state.old).processes slot ≡ None }
    requires strings { length (string_bytes (strings_of strings.now)) ≤ 4096 }
    ensures { IfOk result (λ answer. Settles (with_process (unix_of state.old) slot (process_of process)) slot (process_of process) (exec_line (with_process (unix_of state.old) slot (process_of process)) slot (process_of process) path.now (strings_of strings.now)) (unix_of state.new) answer) }
{
    let loading = match load_at(&state.files, alloc, path, strings, state.pages) {
        Ok(loading) => loading,
        Err(fault) => return Err(fault),
    };
    let loaded = match loading {
        Loading::Loaded(loaded) => loaded,
        Loading::Refused(errno) => return Ok(state.refuse(slot, process, errno)),
        Loading::Crowded => return Ok(state.refuse(slot, process, Errno::Enomem)),
    };
    if !state.fits(
        &process,
        loaded.program.memory.mapped() + 1,
        process.pages(),
    ) {
        return Ok(state.refuse(slot, process, Errno::Enomem));
    }
    let process = process.with_program(loaded.program, loaded.break_start);
    state.put(slot, process);
    Ok(Turned::Worked)
}
