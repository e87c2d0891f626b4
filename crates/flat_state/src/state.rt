//! The state of the machine.

ghost use Rattle.std.specs.Prelude.{◌*◌, ◌<◌, ◌≤◌};

use crate::answer::Answer;
use crate::process::{Phase, Process};
use crate::slots::Slots;
use flat_files::{Files, Opened};
use unix_model::{Errno, Turned};

/// The processes and the files of a machine.
#[derive(Drop)]
pub struct State {
    pub slots: Slots,
    pub files: Files,
    pub next_pid: u32,
    /// The pages that the machine may promise.
    pub pages: u32,
    /// The turns that a slot is given in a row.
    pub quantum: u32,
    /// The turns since the round began.
    pub position: u32,
    ghost few_pages: { pages ≤ 16384 },
    ghost small_quantum: { quantum ≤ 10000 },
    ghost in_round: { position < 64 * quantum },
}

impl State {
    ghost use Rattle.std.specs.Prelude.{◌≡◌, ℕ, ◌+◌, ◌<◌, ◌≤◌, ◌^◌, [], None, Ok, Err, IfSome, option_map};
    ghost use Rattle.unix_model.specs.Effect.{Waits};
    ghost use Rattle.unix_model.specs.Process.{answered, answered_with, descriptor};
    ghost use Rattle.unix_model.specs.Room.{has_room, promised};
    ghost use Rattle.unix_model.specs.State.{Unix, opened, opened_at, with_phase, with_process, with_description_released, with_descriptor_closed};
    ghost use Rattle.unix_model.specs.Tables.{at};
    ghost use Rattle.flat_files.specs.OpenedView.{opened_of};
    ghost use Rattle.flat_state.specs.StateView.{unix_of};
    ghost use Rattle.flat_state.specs.ProcessView.{process_of, phase_of};
    ghost use Rattle.flat_state.specs.Settles.{Settles};

    /// Puts a process into a slot.
    pub fn put(&mut self, slot: u8, process: Process)
        requires { slot < 64 }
        ensures { unix_of self.new ≡ with_process (unix_of self.old) slot (process_of process) }
    {
        self.slots.put(slot, process);
    }

    /// A call is answered with a value.
    pub fn reply(&mut self, slot: u8, process: Process, value: u32) -> Turned
        requires { slot < 64 }
        ensures state { unix_of self.new ≡ with_phase (unix_of self.old) slot (process_of process) (answered value) }
        ensures answer { result ≡ Turned.Worked }
    {
        self.put(slot, process.in_phase(Phase::Done(value)));
        Turned::Worked
    }

    /// A call is answered with a value, and with bytes for the memory.
    pub fn reply_with(&mut self, slot: u8, process: Process, answer: Answer) -> Turned
        requires { slot < 64 }
        ensures state { unix_of self.new ≡ with_phase (unix_of self.old) slot (process_of process) (answered_with answer.value answer.address answer.bytes.items) }
        ensures answer { result ≡ Turned.Worked }
    {
        self.put(slot, process.in_phase(Phase::Gives(answer)));
        Turned::Worked
    }

    /// A call is refused.
    #[tactic(auto, using(unix_model::proofs::TableLaws::tables_over))]
    pub fn refuse(&mut self, slot: u8, process: Process, errno: Errno) -> Turned
        requires { slot < 64 }
        ensures { Settles (with_process (unix_of self.old) slot (process_of process)) slot (process_of process) (Err errno) (unix_of self.new) result }
    {
        self.put(slot, process.refused(errno));
        Turned::Worked
    }

    /// A call has to wait.
    pub fn wait(&mut self, slot: u8, process: Process) -> Turned
        requires { slot < 64 }
        ensures { Settles (with_process (unix_of self.old) slot (process_of process)) slot (process_of process) (Ok Waits) (unix_of self.new) result }
    {
        self.put(slot, process);
        Turned::Blocked
    }

    /// The pages that are promised.
    #[tactic(auto, unfolding(unix_model::specs::Room::promised))]
    pub fn promised(&self) -> u32
        ensures promised { result ≡ promised (unix_of self.now) }
        ensures few { result ≤ 2 ^ 27 }
    {
        self.slots.pages() + self.files.pages()
    }

    /// Whether a state has room that promises so many pages more than this one with a process in a free slot, and so many
    /// less.
    pub fn fits(&self, process: &Process, more: u32, less: u32) -> bool
        requires few { (more ≤ 2 ^ 20) × (less ≤ 2 ^ 20) }
        ensures { (slot : ℕ) (after : Unix) → slot < 64 → at (unix_of self.now).processes slot ≡ None → after.pages ≡ (unix_of self.now).pages → promised after + less ≡ promised (with_process (unix_of self.now) slot (process_of process.now)) + more → result ≡ has_room after }
    {
        let promised = self.promised() + process.pages();
        promised + more <= self.pages + less
    }

    /// What a descriptor of a process is open on, or None where it is closed or no descriptor.
    pub fn opened(&self, process: &Process, number: u32) -> Option<Opened>
        ensures opened { option_map opened_of result ≡ opened (unix_of self.now) (process_of process.now) number }
        ensures inside { IfSome result (λ file. file.number < 2048) }
    {
        let number = match process.descriptor(number) {
            Some(number) => number,
            None => return None,
        };
        match self.files.description(number) {
            Some(description) => Some(Opened {
                number,
                description,
            }),
            None => None,
        }
    }

    /// Closes a descriptor of a process, and puts the process into its slot.
    #[tactic(auto, using(unix_model::proofs::TableLaws::tables))]
    pub fn close(&mut self, slot: u8, process: Process, number: u32)
        requires { slot < 64 }
        ensures { unix_of self.new ≡ with_descriptor_closed (with_process (unix_of self.old) slot (process_of process)) slot (process_of process) number (descriptor (process_of process) number) }
    {
        match process.descriptor(number) {
            Some(description) => {
                self.put(slot, process.without_descriptor(number));
                self.release(description);
            }
            None => self.put(slot, process),
        }
    }

    /// Frees a description that has no descriptor any more.
    pub fn release(&mut self, description: u16)
        ensures { unix_of self.new ≡ with_description_released (unix_of self.old) description }
    {
        if !self.slots.has_descriptor(description) {
            self.files.release_description(description);
        }
    }
}
