//! The lines of read and write on the console.

ghost use Rattle.std.specs.Prelude.{◌≡◌, ◌≢◌, ◌<◌, ◌≤◌, ℕ, List, Some, Err, IfOk, IfErr, OnErr, true, false, length};
ghost use Rattle.kn_io.specs.Faults.{Rose};
ghost use Rattle.kn_io.specs.Sink.{GrewByPrefix};
ghost use Rattle.unix_model.specs.FileCalls.{line_left, line_taken};
ghost use Rattle.unix_model.specs.Files as model;
ghost use Rattle.unix_model.specs.Process.{answered, answered_with};
ghost use Rattle.unix_model.specs.State.{with_phase, with_process};
ghost use Rattle.unix_model.specs.Tables.{at};
ghost use Rattle.flat_state.specs.ProcessView.{process_of};
ghost use Rattle.flat_state.specs.StateView.{unix_of};
ghost use Rattle.flat_file_calls.specs.Console.{CountsSame, TakesFront};

mod fault;
mod lines;

pub use fault::ConsoleFault;
use flat_files::Inode;
use flat_state::{Answer, Process, State};
use kn_io::{Failed, Sink, Source};
use lines::take_line;
use std::alloc::Global;
use unix_model::Turned;

/// Whether an inode is the console.
pub(crate) fn is_console(state: &State, inode: u16) -> bool
    ensures yes { result ≡ true → at (unix_of state.now).files.inodes inode ≡ Some model.Console }
    ensures no { result ≡ false → at (unix_of state.now).files.inodes inode ≢ Some model.Console }
{
    match state.files.inode(inode) {
        Some(Inode::Console) => true,
        _ => false,
    }
}

/// The line of read, of at least one byte, on the console: a line of its input.
pub(crate) fn read_console<S: Source>(
    state: &mut State,
    alloc: Global,
    slot: u8,
    process: Process,
    address: u32,
    count: u32,
    input: &mut S,
) -> Result<Turned, ConsoleFault>
    requires slot { slot < 64 }
    requires count { count ≤ 4096 }
    ensures state { IfOk result (λ answer. (bytes : List ℕ) → S.left input.old ≡ Some bytes → unix_of state.new ≡ with_phase (unix_of state.old) slot (process_of process) (answered_with (length (line_taken count bytes)) address (line_taken count bytes))) }
    ensures answer { IfOk result (λ answer. answer ≡ Turned.Worked) }
    ensures left { IfOk result (λ answer. (bytes : List ℕ) → S.left input.old ≡ Some bytes → S.left input.new ≡ Some (line_left count bytes)) }
    ensures unchanged { result ≡ Err ConsoleFault.Failed → unix_of state.new ≡ with_process (unix_of state.old) slot (process_of process) }
    ensures part { OnErr result ((bytes : List ℕ) → S.left input.old ≡ Some bytes → TakesFront bytes (line_taken count bytes) (S.left input.new)) }
    ensures failed { result ≡ Err ConsoleFault.Failed → Rose (S.faults input.old) (S.faults input.new) }
    ensures same { CountsSame (S.faults input.new ≡ S.faults input.old) result }
    ensures counted { S.faults input.old ≤ S.faults input.new }
{
    let line = match take_line(alloc, count, input) {
        Ok(line) => line,
        Err(fault) => {
            state.put(slot, process);
            return Err(fault);
        }
    };
    Ok(state.reply_with(
        slot,
        process,
        Answer {
            value: line.len() as u32,
            address,
            bytes: line,
        },
    ))
}

/// The line of write, of at least one byte, on the console: all bytes are put.
pub(crate) fn write_console<K: Sink>(
    state: &mut State,
    slot: u8,
    process: Process,
    written: &[u8],
    output: &mut K,
) -> Result<Turned, ConsoleFault>
    requires slot { slot < 64 }
    requires few { length written.now ≤ 4096 }
    ensures state { IfOk result (λ answer. unix_of state.new ≡ with_phase (unix_of state.old) slot (process_of process) (answered (length written.now))) }
    ensures answer { IfOk result (λ answer. answer ≡ Turned.Worked) }
    ensures grew { IfOk result (λ answer. K.grew output.old written.now output.new) }
    ensures unchanged { OnErr result (unix_of state.new ≡ with_process (unix_of state.old) slot (process_of process)) }
    ensures part { OnErr result (GrewByPrefix K.grew output.old written.now output.new) }
    ensures fault { IfErr result (λ fault. fault ≡ ConsoleFault.Failed) }
    ensures failed { OnErr result (Rose (K.faults output.old) (K.faults output.new)) }
    ensures same { CountsSame (K.faults output.new ≡ K.faults output.old) result }
    ensures counted { K.faults output.old ≤ K.faults output.new }
{
    match output.put(written) {
        Ok(()) => Ok(state.reply(slot, process, written.len() as u32)),
        Err(Failed) => {
            state.put(slot, process);
            Err(ConsoleFault::Failed)
        }
    }
}
