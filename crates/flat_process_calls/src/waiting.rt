//! The lines of wait and waitpid.

ghost use Rattle.std.specs.Prelude.{◌≡◌, ◌≤◌, ◌<◌, None, IfOk, length};
ghost use Rattle.unix_model.specs.ProcessCalls.{wait_line, waitpid_line, word_bytes};
ghost use Rattle.unix_model.specs.State.{with_process};
ghost use Rattle.unix_model.specs.Tables.{at, with_at};
ghost use Rattle.flat_state.specs.ProcessView.{process_of};
ghost use Rattle.flat_state.specs.Settles.{Settles};
ghost use Rattle.flat_state.specs.StateView.{unix_of};

use crate::children::find_children;
use flat_state::{Answer, Process, State};
use std::alloc::{AllocError, Global};
use unix_model::{Errno, Turned};

/// The bytes of a word for an address, or none where that is 0.
fn word_bytes(alloc: Global, address: u32, word: u32) -> Result<Vec<u8>, AllocError>
    ensures word { IfOk result (λ bytes. bytes.items ≡ word_bytes address word) }
    ensures few { IfOk result (λ bytes. length bytes.items ≤ 4096) }
{
    if address == 0 {
        return Ok(Vec::new(alloc));
    }
    Vec::from_slice(alloc, &word.to_le_bytes())
}

/// Frees a slot.
fn free(state: &mut State, slot: u8)
    requires { slot < 64 }
    ensures { unix_of state.new ≡ record (unix_of state.old) { processes = with_at (unix_of state.old).processes slot None } }
{
    let _process = state.slots.take(slot);
}

/// The line of waitpid(pid, address, options).
#[tactic(auto, using(unix_model::proofs::TableLaws::tables_over))]
pub fn waitpid(
    state: &mut State,
    alloc: Global,
    slot: u8,
    process: Process,
    wanted: u32,
    address: u32,
    options: u32,
) -> Result<Turned, AllocError>
    requires slot { slot < 64 }
    requires free { at (unix_of state.old).processes slot ≡ None }
    ensures { IfOk result (λ answer. Settles (with_process (unix_of state.old) slot (process_of process)) slot (process_of process) (waitpid_line (with_process (unix_of state.old) slot (process_of process)) slot (process_of process) wanted address options) (unix_of state.new) answer) }
{
    let children = find_children(state, slot, process, wanted);
    if !children.is_there {
        return Ok(state.refuse(slot, children.process, Errno::Echild));
    }
    match children.ended {
        Some(ended) => {
            let answer = Answer {
                value: ended.pid,
                address,
                bytes: word_bytes(alloc, address, ended.word)?,
            };
            free(state, ended.slot);
            Ok(state.reply_with(slot, children.process, answer))
        }
        None => {
            if options == 1 {
                Ok(state.reply(slot, children.process, 0))
            } else {
                Ok(state.wait(slot, children.process))
            }
        }
    }
}

/// The line of wait(address): waitpid for any child, and without options.
pub fn wait(
    state: &mut State,
    alloc: Global,
    slot: u8,
    process: Process,
    address: u32,
) -> Result<Turned, AllocError>
    requires slot { slot < 64 }
    requires free { at (unix_of state.old).processes slot ≡ None }
    ensures { IfOk result (λ answer. Settles (with_process (unix_of state.old) slot (process_of process)) slot (process_of process) (wait_line (with_process (unix_of state.old) slot (process_of process)) slot (process_of process) address) (unix_of state.new) answer) }
{
    waitpid(state, alloc, slot, process, u32::MAX, address, 0)
}
