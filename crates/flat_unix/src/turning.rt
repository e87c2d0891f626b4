//! The turn of a slot.

ghost use Rattle.std.specs.Prelude.{◌≡◌, ◌<◌, ◌≤◌, ℕ, List, [], None, Some, Err, IfErr, IfOk, OnErr};
ghost use Rattle.kn_io.specs.Faults.{Rose};
ghost use Rattle.kn_io.specs.Sink.{GrewByPrefix};
ghost use Rattle.unix_model.specs.Calls.{call_of};
ghost use Rattle.unix_model.specs.Process.{Sent};
ghost use Rattle.unix_model.specs.State.{with_process};
ghost use Rattle.unix_model.specs.Tables.{at};
ghost use Rattle.unix_model.specs.Turn.{MakesTurn, ticked, turned};
ghost use Rattle.flat_file_calls.specs.Console.{Reads, TakesFront, Writes};
ghost use Rattle.flat_state.specs.PaceView.{pace_of};
ghost use Rattle.flat_state.specs.declared.pace.Pace.TheVariants.{Other};
ghost use Rattle.flat_state.specs.ProcessView.{process_of, sent_call_of};
ghost use Rattle.flat_state.specs.StateView.{unix_of};
ghost use Rattle.flat_unix.specs.Turns.{CountsSame, IsTurnFault};

use crate::flat::FlatFault;
use crate::steps::quiet_step;
use crate::transfers::{Transfer, transfer_of};
use flat_file_calls::{ConsoleFault, read, write};
use flat_state::{Pace, Process, SentCall, State};
use kn_io::{Sink, Source};
use std::alloc::Global;
use unix_model::{Call, Turned};

/// The turn of a slot, but for the position, which goes on after it.
pub(crate) fn step<S: Source, K: Sink>(
    state: &mut State,
    alloc: Global,
    slot: u8,
    input: &mut S,
    output: &mut K,
) -> Result<Turned, FlatFault>
    requires { slot < 64 }
    ensures turn { IfOk result (λ answer. (bytes : List ℕ) → S.left input.old ≡ Some bytes → MakesTurn (turned call_of (unix_of state.old) slot bytes) S.left K.grew (ticked (unix_of state.new)) answer input.new output.old output.new) }
    ensures read_fault { result ≡ Err FlatFault.ReadFault → (unix_of state.new ≡ unix_of state.old) × (output.new ≡ output.old) }
    ensures write_fault { result ≡ Err FlatFault.WriteFault → (unix_of state.new ≡ unix_of state.old) × (input.new ≡ input.old) }
    ensures lost { OnErr result ((bytes : List ℕ) → S.left input.old ≡ Some bytes → TakesFront bytes (turned call_of (unix_of state.old) slot bytes).taken (S.left input.new)) }
    ensures part { OnErr result ((bytes : List ℕ) → S.left input.old ≡ Some bytes → GrewByPrefix K.grew output.old (turned call_of (unix_of state.old) slot bytes).put output.new) }
    ensures takes_nothing { ((bytes : List ℕ) → (turned call_of (unix_of state.old) slot bytes).taken ≡ []) → input.new ≡ input.old }
    ensures puts_nothing { ((bytes : List ℕ) → (turned call_of (unix_of state.old) slot bytes).put ≡ []) → output.new ≡ output.old }
    ensures cause { IfErr result (IsTurnFault (Rose (S.faults input.old) (S.faults input.new)) (Rose (K.faults output.old) (K.faults output.new))) }
    ensures same { CountsSame (S.faults input.new ≡ S.faults input.old) (K.faults output.new ≡ K.faults output.old) result }
    ensures input_counted { S.faults input.old ≤ S.faults input.new }
    ensures output_counted { K.faults output.old ≤ K.faults output.new }
{
    match state.slots.pace(slot) {
        Pace::Free => Ok(Turned::Free),
        Pace::Running => {
            state.slots.run(slot);
            Ok(Turned::Worked)
        }
        Pace::Other => work(state, alloc, slot, input, output),
    }
}

/// The turn of a process that does anything but an instruction.
fn work<S: Source, K: Sink>(
    state: &mut State,
    alloc: Global,
    slot: u8,
    input: &mut S,
    output: &mut K,
) -> Result<Turned, FlatFault>
    requires slot { slot < 64 }
    requires pace { pace_of (at (unix_of state.old).processes slot) ≡ Other }
    ensures turn { IfOk result (λ answer. (bytes : List ℕ) → S.left input.old ≡ Some bytes → MakesTurn (turned call_of (unix_of state.old) slot bytes) S.left K.grew (ticked (unix_of state.new)) answer input.new output.old output.new) }
    ensures read_fault { result ≡ Err FlatFault.ReadFault → (unix_of state.new ≡ unix_of state.old) × (output.new ≡ output.old) }
    ensures write_fault { result ≡ Err FlatFault.WriteFault → (unix_of state.new ≡ unix_of state.old) × (input.new ≡ input.old) }
    ensures lost { OnErr result ((bytes : List ℕ) → S.left input.old ≡ Some bytes → TakesFront bytes (turned call_of (unix_of state.old) slot bytes).taken (S.left input.new)) }
    ensures part { OnErr result ((bytes : List ℕ) → S.left input.old ≡ Some bytes → GrewByPrefix K.grew output.old (turned call_of (unix_of state.old) slot bytes).put output.new) }
    ensures takes_nothing { ((bytes : List ℕ) → (turned call_of (unix_of state.old) slot bytes).taken ≡ []) → input.new ≡ input.old }
    ensures puts_nothing { ((bytes : List ℕ) → (turned call_of (unix_of state.old) slot bytes).put ≡ []) → output.new ≡ output.old }
    ensures cause { IfErr result (IsTurnFault (Rose (S.faults input.old) (S.faults input.new)) (Rose (K.faults output.old) (K.faults output.new))) }
    ensures same { CountsSame (S.faults input.new ≡ S.faults input.old) (K.faults output.new ≡ K.faults output.old) result }
    ensures input_counted { S.faults input.old ≤ S.faults input.new }
    ensures output_counted { K.faults output.old ≤ K.faults output.new }
{
    match state.slots.take(slot) {
        Some(process) => go_on(state, alloc, slot, process, input, output),
        None => unreachable!(),
    }
}

/// The same of a process that was taken out of its slot, and is put back.
fn go_on<S: Source, K: Sink>(
    state: &mut State,
    alloc: Global,
    slot: u8,
    process: Process,
    input: &mut S,
    output: &mut K,
) -> Result<Turned, FlatFault>
    requires slot { slot < 64 }
    requires free { at (unix_of state.old).processes slot ≡ None }
    requires pace { pace_of (Some (process_of process)) ≡ Other }
    ensures turn { IfOk result (λ answer. (bytes : List ℕ) → S.left input.old ≡ Some bytes → MakesTurn (turned call_of (with_process (unix_of state.old) slot (process_of process)) slot bytes) S.left K.grew (ticked (unix_of state.new)) answer input.new output.old output.new) }
    ensures read_fault { result ≡ Err FlatFault.ReadFault → (unix_of state.new ≡ with_process (unix_of state.old) slot (process_of process)) × (output.new ≡ output.old) }
    ensures write_fault { result ≡ Err FlatFault.WriteFault → (unix_of state.new ≡ with_process (unix_of state.old) slot (process_of process)) × (input.new ≡ input.old) }
    ensures lost { OnErr result ((bytes : List ℕ) → S.left input.old ≡ Some bytes → TakesFront bytes (turned call_of (with_process (unix_of state.old) slot (process_of process)) slot bytes).taken (S.left input.new)) }
    ensures part { OnErr result ((bytes : List ℕ) → S.left input.old ≡ Some bytes → GrewByPrefix K.grew output.old (turned call_of (with_process (unix_of state.old) slot (process_of process)) slot bytes).put output.new) }
    ensures takes_nothing { ((bytes : List ℕ) → (turned call_of (with_process (unix_of state.old) slot (process_of process)) slot bytes).taken ≡ []) → input.new ≡ input.old }
    ensures puts_nothing { ((bytes : List ℕ) → (turned call_of (with_process (unix_of state.old) slot (process_of process)) slot bytes).put ≡ []) → output.new ≡ output.old }
    ensures cause { IfErr result (IsTurnFault (Rose (S.faults input.old) (S.faults input.new)) (Rose (K.faults output.old) (K.faults output.new))) }
    ensures same { CountsSame (S.faults input.new ≡ S.faults input.old) (K.faults output.new ≡ K.faults output.old) result }
    ensures input_counted { S.faults input.old ≤ S.faults input.new }
    ensures output_counted { K.faults output.old ≤ K.faults output.new }
{
    let transfer = match transfer_of(alloc, &process) {
        Ok(transfer) => transfer,
        Err(_) => return Err(FlatFault::NoMemory),
    };
    match transfer {
        Transfer::Reads(sent) => read_turn(state, alloc, slot, process, &sent, input),
        Transfer::Writes(sent) => write_turn(state, alloc, slot, process, &sent, output),
        Transfer::Neither => match quiet_step(state, alloc, slot, process) {
            Ok(answer) => Ok(answer),
            Err(_) => Err(FlatFault::NoMemory),
        },
    }
}

/// The turn of a read that a process has sent.
fn read_turn<S: Source>(
    state: &mut State,
    alloc: Global,
    slot: u8,
    process: Process,
    sent: &SentCall,
    input: &mut S,
) -> Result<Turned, FlatFault>
    requires slot { slot < 64 }
    requires free { at (unix_of state.old).processes slot ≡ None }
    requires phase { (process_of process).phase ≡ Sent (sent_call_of sent.now) }
    requires call { sent.now.call ≡ Call.Read }
    ensures turn { IfOk result (λ answer. (bytes : List ℕ) → S.left input.old ≡ Some bytes → Reads (turned call_of (with_process (unix_of state.old) slot (process_of process)) slot bytes) S.left (ticked (unix_of state.new)) answer input.new) }
    ensures unchanged { result ≡ Err FlatFault.ReadFault → unix_of state.new ≡ with_process (unix_of state.old) slot (process_of process) }
    ensures lost { OnErr result ((bytes : List ℕ) → S.left input.old ≡ Some bytes → TakesFront bytes (turned call_of (with_process (unix_of state.old) slot (process_of process)) slot bytes).taken (S.left input.new)) }
    ensures takes_nothing { ((bytes : List ℕ) → (turned call_of (with_process (unix_of state.old) slot (process_of process)) slot bytes).taken ≡ []) → input.new ≡ input.old }
    ensures cause { IfErr result (IsTurnFault (Rose (S.faults input.old) (S.faults input.new)) ⊥) }
    ensures same { CountsSame (S.faults input.new ≡ S.faults input.old) (Unit {0}) result }
    ensures counted { S.faults input.old ≤ S.faults input.new }
{
    let [number, address, count, _] = sent.arguments;
    match read(state, alloc, slot, process, number, address, count, input) {
        Ok(answer) => Ok(answer),
        Err(ConsoleFault::Failed) => Err(FlatFault::ReadFault),
        Err(ConsoleFault::NoMemory) => Err(FlatFault::NoMemory),
    }
}

/// The turn of a write that a process has sent.
fn write_turn<K: Sink>(
    state: &mut State,
    alloc: Global,
    slot: u8,
    process: Process,
    sent: &SentCall,
    output: &mut K,
) -> Result<Turned, FlatFault>
    requires slot { slot < 64 }
    requires free { at (unix_of state.old).processes slot ≡ None }
    requires phase { (process_of process).phase ≡ Sent (sent_call_of sent.now) }
    requires call { sent.now.call ≡ Call.Write }
    ensures turn { IfOk result (λ answer. Writes (turned call_of (with_process (unix_of state.old) slot (process_of process)) slot) K.grew (ticked (unix_of state.new)) answer output.old output.new) }
    ensures unchanged { result ≡ Err FlatFault.WriteFault → unix_of state.new ≡ with_process (unix_of state.old) slot (process_of process) }
    ensures part { OnErr result ((bytes : List ℕ) → GrewByPrefix K.grew output.old (turned call_of (with_process (unix_of state.old) slot (process_of process)) slot bytes).put output.new) }
    ensures puts_nothing { ((bytes : List ℕ) → (turned call_of (with_process (unix_of state.old) slot (process_of process)) slot bytes).put ≡ []) → output.new ≡ output.old }
    ensures cause { IfErr result (IsTurnFault ⊥ (Rose (K.faults output.old) (K.faults output.new))) }
    ensures same { CountsSame (Unit {0}) (K.faults output.new ≡ K.faults output.old) result }
    ensures counted { K.faults output.old ≤ K.faults output.new }
{
    match write(
        state,
        alloc,
        slot,
        process,
        sent.arguments[0],
        &sent.bytes,
        output,
    ) {
        Ok(answer) => Ok(answer),
        Err(ConsoleFault::Failed) => Err(FlatFault::WriteFault),
        Err(ConsoleFault::NoMemory) => Err(FlatFault::NoMemory),
    }
}
