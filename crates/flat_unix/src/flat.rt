//! The machine.

use crate::turning::step;
use crate::waiting::works;
use flat_boot::file_at;
use flat_state::{Pace, State};
use kn_io::{Sink, Source};
use std::alloc::Global;
use unix_model::{ElfFault, Regs, Turned, WaitWord};

/// Why a call of the machine failed.
#[derive(Clone, Copy, Debug, PartialEq, Eq)]
pub enum FlatFault {
    /// A call of the input failed.
    ReadFault,
    /// A call of the output failed.
    WriteFault,
    /// Host memory ran out. The machine is then given up.
    NoMemory,
    /// The machine has no room for what was to be stored or started.
    NoRoom,
    /// The program's file isn't one that can be run.
    Elf(ElfFault),
}

/// A machine of 64 process slots with its files.
#[derive(Drop)]
pub struct Flat {
    pub(crate) state: State,
}

ghost use Rattle.std.specs.Prelude.{◌≡◌, ◌+◌, ◌%◌, ◌<◌, ◌≤◌};

impl Flat {
    ghost use Rattle.std.specs.Prelude.{◌≡◌, ℕ, ◌+◌, ◌*◌, ◌/◌, ◌%◌, ◌<◌, ◌≤◌, Bool, true, false, List, [], Option, Some, None, Err, IfOk, IfErr, OnErr, option_map};
    ghost use Rattle.kn_io.specs.Faults.{Rose};
    ghost use Rattle.kn_io.specs.Sink.{GrewByPrefix};
    ghost use Rattle.unix_model.specs.Calls.{call_of};
    ghost use Rattle.unix_model.specs.Paths.{file_at};
    ghost use Rattle.unix_model.specs.Schedule.{Round, is_idle, next_slot};
    ghost use Rattle.unix_model.specs.State.{halted_word};
    ghost use Rattle.unix_model.specs.Tables.{at};
    ghost use Rattle.unix_model.specs.Turn.{turned, ticked, MakesTurn};
    ghost use Rattle.unix_model.specs.TurnRecord.{free_turn};
    ghost use Rattle.flat_file_calls.specs.Console.{TakesFront};
    ghost use Rattle.flat_unix.specs.FlatView.{unix_of};
    ghost use Rattle.flat_unix.specs.FreeTurns.{after_turns, has_nothing_to_do, ticked_times};
    ghost use Rattle.flat_unix.specs.Turns.{CountsSame, IsTurnFault};

    /// The wait word of process slot 0; None exactly where that isn't a zombie.
    pub fn halted(&self) -> Option<WaitWord>
        ensures { option_map (λ word. word.0) result ≡ halted_word (unix_of self.now) }
    {
        match self.state.slots.first_word() {
            Some(word) => Some(WaitWord(word)),
            None => None,
        }
    }

    /// The turns since the round began.
    pub fn position(&self) -> u32
        ensures { result ≡ (unix_of self.now).position }
    {
        self.state.position
    }

    /// The slot whose turn it is where the turns go round.
    pub fn round_slot(&self) -> u8
        ensures slot { (mark : Option Bool) → result ≡ next_slot (unix_of self.now) (Round mark) }
        ensures below { result < 64 }
    {
        (self.state.position / self.state.quantum) as u8
    }

    /// The registers of the process in a slot below 64; None exactly where the slot is free.
    pub fn regs(&self, slot: u8) -> Option<Regs>
        requires { slot < 64 }
        ensures { result ≡ option_map (λ process. process.registers) (at (unix_of self.now).processes slot) }
    {
        match self.state.slots.get(slot) {
            Some(process) => Some(process.registers),
            None => None,
        }
    }

    /// The bytes of the file at a path from the root; None exactly where the path names no file.
    pub fn file_bytes(&self, path: &[u8]) -> Option<&[u8]>
        ensures { option_map (λ bytes. bytes.now) result ≡ file_at (unix_of self.now).files path.now }
    {
        file_at(&self.state.files, path)
    }

    /// Whether the machine is idle: no turn of a slot works, since each is free, a zombie, or waits.
    #[tactic(auto, using(unix_model::proofs::TableLaws::steps), unfolding(unix_model::specs::Schedule::is_idle))]
    pub fn is_idle(&self) -> bool
        ensures { result ≡ is_idle call_of (unix_of self.now) }
    {
        for slot in 0..64u8 {
            if works(&self.state, slot) {
                return false;
            }
        }
        true
    }

    /// How many turns in a row, from this one on, find nothing to do where the turns go round: those before the next slot
    /// that has something to do, or before the round's end where none has.
    pub fn free_left(&self) -> u32
        ensures inside { (unix_of self.now).position + result ≤ 64 * (unix_of self.now).quantum }
        ensures free { (k : ℕ) → k < result → has_nothing_to_do (at (unix_of self.now).processes (((unix_of self.now).position + k) / (unix_of self.now).quantum)) ≡ true }
        ensures some { has_nothing_to_do (at (unix_of self.now).processes ((unix_of self.now).position / (unix_of self.now).quantum)) ≡ true → 0 < result }
        ensures ends { (unix_of self.now).position + result < 64 * (unix_of self.now).quantum → has_nothing_to_do (at (unix_of self.now).processes (((unix_of self.now).position + result) / (unix_of self.now).quantum)) ≡ false }
    {
        let slot = self.round_slot();
        let next = self.next_busy(slot);
        if next == slot {
            0
        } else {
            u32::from(next) * self.state.quantum - self.state.position
        }
    }

    /// The first slot from this one on that has something to do, or 64 where none has.
    fn next_busy(&self, slot: u8) -> u8
        requires { slot < 64 }
        ensures range { (slot ≤ result) × (result ≤ 64) }
        ensures free { (k : ℕ) → slot ≤ k → k < result → has_nothing_to_do (at (unix_of self.now).processes k) ≡ true }
        ensures ends { result < 64 → has_nothing_to_do (at (unix_of self.now).processes result) ≡ false }
    {
        let mut next = slot;
        'slots: while next < 64 {
            if !self.is_free(next) {
                return next;
            }
            next += 1;
        }
        next
    }

    /// The position goes on with every turn.
    fn tick(&mut self)
        ensures { unix_of self.new ≡ ticked (unix_of self.old) }
    {
        let next = self.state.position + 1;
        self.state.position = if next == 64 * self.state.quantum {
            0
        } else {
            next
        };
    }

    /// A turn of a slot below 64: the slot's process goes on by one step.
    ///
    /// # Errors
    ///
    /// `ReadFault` only where the input's count of faults rose: the input then lost a front of what the turn takes.
    /// `WriteFault` only where the output's count of faults rose: the output then got a front of what the turn puts. The
    /// machine is as before at both, and no other call of the outside was made. `NoMemory` is free; the machine is then
    /// given up. No other fault comes. But for the call that failed, the counts of faults are as before.
    pub fn turn<S: Source, K: Sink>(
        &mut self,
        alloc: Global,
        slot: u8,
        input: &mut S,
        output: &mut K,
    ) -> Result<Turned, FlatFault>
        requires { slot < 64 }
        ensures turn { IfOk result (λ answer. (bytes : List ℕ) → S.left input.old ≡ Some bytes → MakesTurn (turned call_of (unix_of self.old) slot bytes) S.left K.grew (unix_of self.new) answer input.new output.old output.new) }
        ensures read_fault { result ≡ Err FlatFault.ReadFault → (unix_of self.new ≡ unix_of self.old) × (output.new ≡ output.old) }
        ensures write_fault { result ≡ Err FlatFault.WriteFault → (unix_of self.new ≡ unix_of self.old) × (input.new ≡ input.old) }
        ensures lost { OnErr result ((bytes : List ℕ) → S.left input.old ≡ Some bytes → TakesFront bytes (turned call_of (unix_of self.old) slot bytes).taken (S.left input.new)) }
        ensures part { OnErr result ((bytes : List ℕ) → S.left input.old ≡ Some bytes → GrewByPrefix K.grew output.old (turned call_of (unix_of self.old) slot bytes).put output.new) }
        ensures takes_nothing { ((bytes : List ℕ) → (turned call_of (unix_of self.old) slot bytes).taken ≡ []) → input.new ≡ input.old }
        ensures puts_nothing { ((bytes : List ℕ) → (turned call_of (unix_of self.old) slot bytes).put ≡ []) → output.new ≡ output.old }
        ensures cause { IfErr result (IsTurnFault (Rose (S.faults input.old) (S.faults input.new)) (Rose (K.faults output.old) (K.faults output.new))) }
        ensures same { CountsSame (S.faults input.new ≡ S.faults input.old) (K.faults output.new ≡ K.faults output.old) result }
        ensures input_counted { S.faults input.old ≤ S.faults input.new }
        ensures output_counted { K.faults output.old ≤ K.faults output.new }
    {
        let answer = match step(&mut self.state, alloc, slot, input, output) {
            Ok(answer) => answer,
            Err(fault) => return Err(fault),
        };
        self.tick();
        Ok(answer)
    }

    /// Whether a turn of a slot below 64 has nothing to do: exactly where the slot has no process, or one that has ended.
    pub fn is_free(&self, slot: u8) -> bool
        requires { slot < 64 }
        ensures nothing { result ≡ has_nothing_to_do (at (unix_of self.now).processes slot) }
        ensures turn { result ≡ true → (bytes : List ℕ) → turned call_of (unix_of self.now) slot bytes ≡ free_turn (ticked (unix_of self.now)) bytes }
    {
        match self.state.slots.pace(slot) {
            Pace::Free => true,
            Pace::Running => false,
            Pace::Other => false,
        }
    }

    /// Makes so many turns at once of a slot below 64 where nothing is there to do. They change the position alone.
    pub fn free_turns(&mut self, slot: u8, number: u32)
        requires slot { slot < 64 }
        requires free { has_nothing_to_do (at (unix_of self.old).processes slot) ≡ true }
        ensures turns { unix_of self.new ≡ after_turns slot number (unix_of self.old) }
        ensures ticks { unix_of self.new ≡ ticked_times number (unix_of self.old) }
    {
        self.state.position = advanced(self.state.position, number, 64 * self.state.quantum);
    }
}

/// The position after so many turns.
fn advanced(position: u32, number: u32, round: u32) -> u32
    requires inside { position < round }
    requires few { round ≤ 640000 }
    ensures { result ≡ (position + number % round) % round }
{
    let next = position + remainder(number, round);
    if next < round { next } else { next - round }
}

/// What is left of so many turns after whole rounds. Most stretches are shorter than a round, so that nothing is divided.
fn remainder(number: u32, round: u32) -> u32
    requires { 0 < round }
    ensures { result ≡ number % round }
{
    if number < round {
        number
    } else {
        number % round
    }
}
