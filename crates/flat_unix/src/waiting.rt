//! Whether a turn of a slot works, without making it.

ghost use Rattle.std.specs.Prelude.{◌≡◌, ◌<◌, ◌≤◌, ℕ, [], length};
ghost use Rattle.unix_model.specs.Calls.{call_of};
ghost use Rattle.unix_model.specs.FileCalls.{read_line, write_line};
ghost use Rattle.unix_model.specs.ProcessCalls.{waitpid_line};
ghost use Rattle.unix_model.specs.Schedule.{is_work};
ghost use Rattle.unix_model.specs.Tables.{at};
ghost use Rattle.unix_model.specs.Turn.{call_line, turned_at};
ghost use Rattle.flat_state.specs.ProcessView.{process_of, sent_call_of};
ghost use Rattle.flat_state.specs.StateView.{unix_of};
ghost use Rattle.flat_unix.specs.Idle.{is_waiting};

use flat_files::Inode;
use flat_state::{Phase, Process, SentCall, State};
use unix_model::Call;

/// Whether a turn of a slot works: a process is there that has neither ended nor waits.
pub(crate) fn works(state: &State, slot: u8) -> bool
    requires { slot < 64 }
    ensures { result ≡ is_work (turned_at call_of (unix_of state.now) slot [] (at (unix_of state.now).processes slot)).answer }
{
    match state.slots.get(slot) {
        Some(process) => match &process.phase {
            Phase::Sent(sent) => !waits(state, process, sent),
            Phase::Zombie(_) => false,
            _ => true,
        },
        None => false,
    }
}

/// Whether a call that a process has sent has to wait.
fn waits(state: &State, process: &Process, sent: &SentCall) -> bool
    ensures { (slot : ℕ) → result ≡ is_waiting (call_line (unix_of state.now) slot (process_of process.now) [] (sent_call_of sent.now) sent.now.call) }
{
    let [a0, _, a2, _] = sent.arguments;
    match sent.call {
        Call::Wait => child_waits(state, process, u32::MAX, 0),
        Call::Waitpid => child_waits(state, process, a0, a2),
        Call::Read => read_waits(state, process, a0, a2),
        Call::Write => write_waits(state, process, a0, &sent.bytes),
        _ => false,
    }
}

/// Whether a wait for children has to wait.
fn child_waits(state: &State, process: &Process, wanted: u32, options: u32) -> bool
    ensures { (slot address : ℕ) → result ≡ is_waiting (waitpid_line (unix_of state.now) slot (process_of process.now) wanted address options) }
{
    if !state.slots.has_waited(process.pid, wanted) {
        return false;
    }
    match state.slots.least_ended(process.pid, wanted) {
        Some(_) => false,
        None => !(options == 1),
    }
}

/// Whether a read has to wait: a pipe is empty, and has a writer.
fn read_waits(state: &State, process: &Process, number: u32, count: u32) -> bool
    ensures { (slot address : ℕ) → result ≡ is_waiting (read_line (unix_of state.now) slot (process_of process.now) [] number address count) }
{
    let file = match state.opened(process, number) {
        Some(file) => file,
        None => return false,
    };
    if count == 0 {
        return false;
    }
    let inode = file.description.inode;
    match state.files.inode(inode) {
        Some(Inode::Pipe(pipe)) => pipe.bytes.is_empty() && state.files.has_writer(inode),
        _ => false,
    }
}

/// Whether a write has to wait: a pipe has a reader, and too little room.
fn write_waits(state: &State, process: &Process, number: u32, written: &[u8]) -> bool
    requires { length written.now ≤ 4096 }
    ensures { (slot : ℕ) → result ≡ is_waiting (write_line (unix_of state.now) slot (process_of process.now) number written.now) }
{
    let file = match state.opened(process, number) {
        Some(file) => file,
        None => return false,
    };
    if written.is_empty() {
        return false;
    }
    let inode = file.description.inode;
    match state.files.inode(inode) {
        Some(Inode::Pipe(pipe)) => {
            state.files.has_reader(inode) && pipe.bytes.len() + written.len() > 4096
        }
        _ => false,
    }
}
