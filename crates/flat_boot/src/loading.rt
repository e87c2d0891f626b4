//! The first process.

ghost use Rattle.std.specs.Prelude.{◌≡◌, ◌+◌, ◌-◌, ◌≤◌, ◌^◌, ℕ, List, IfOk, IsSome, Some, length};
ghost use Rattle.elf_read.specs.Accepted.{IsSound};
ghost use Rattle.elf_read.specs.Shown.{shown_answer, shown_plan};
ghost use Rattle.unix_model.specs.Boot.{first_process, init_arguments, init_path, started, with_init};
ghost use Rattle.unix_model.specs.Elf.{LoadPlan, plan_of};
ghost use Rattle.unix_model.specs.Loading.{image, start_registers};
ghost use Rattle.unix_model.specs.Memory.{mapped_pages};
ghost use Rattle.unix_model.specs.Paths.{file_at};
ghost use Rattle.unix_model.specs.Room.{has_room, process_pages, promised};
ghost use Rattle.unix_model.specs.Tables.{at};
ghost use Rattle.flat_files.specs.FilesView.{files_of};
ghost use Rattle.flat_memory.specs.MemoryView.{memory_of};
ghost use Rattle.flat_memory.specs.StringsView.{strings_of};
ghost use Rattle.flat_state.specs.ProcessView.{process_of};
ghost use Rattle.flat_state.specs.StateView.{unix_of};
ghost use Rattle.flat_boot.specs.Starts.{Loads, Starts};

use crate::fault::BootFault;
use crate::files::file_at;
use elf_read::{ElfPlan, SliceBytes, read};
use flat_files::Description;
use flat_memory::{Program, load_program};
use flat_state::{Heap, Phase, Process, State};
use std::alloc::{AllocError, Global};
use unix_model::ElfFault;

/// The path of the first program, which is also its one argument.
const INIT: &[u8] = b"/init";

/// The console, open for reading and writing.
const CONSOLE: Description = Description {
    inode: 0,
    readable: true,
    writable: true,
    append: false,
    offset: 0,
};

/// Loads `/init` in slot 0 as process 1, with the console as its descriptors 0 to 2.
///
/// # Errors
///
/// `Elf` where the file isn't a program that this machine runs, and `NoRoom` exactly where the machine with the program
/// loaded has no room; the machine is then as before. `NoMemory` is free; the machine is then given up.
pub fn start(state: &mut State, alloc: Global) -> Result<(), BootFault>
    requires { IsSome (file_at (unix_of state.old).files init_path) }
    ensures { Starts (with_init (unix_of state.old)) (unix_of state.old) (unix_of state.new) result }
{
    let file = match file_at(&state.files, INIT) {
        Some(file) => file,
        None => unreachable!(),
    };
    let process = match load(state, alloc, file) {
        Ok(process) => process,
        Err(fault) => return Err(fault),
    };
    state.files.set_description(0, CONSOLE);
    state.next_pid = 2;
    state.put(0, process);
    Ok(())
}

/// Process 1, loaded from the file `/init`.
fn load(state: &State, alloc: Global, file: &[u8]) -> Result<Process, BootFault>
    requires file { file_at (unix_of state.now).files init_path ≡ Some file.now }
    requires few { length file.now ≤ 4194304 }
    ensures { Loads (with_init (unix_of state.now)) (unix_of state.now) result }
{
    let plan = match read_plan(file) {
        Ok(plan) => plan,
        Err(fault) => return Err(BootFault::Elf(fault)),
    };
    let strings = match init_arguments(alloc) {
        Ok(strings) => strings,
        Err(_) => return Err(BootFault::NoMemory),
    };
    let loads = plan.loads.as_slice();
    let limit = room_to_start(state);
    let program = match load_program(alloc, file, plan.entry, loads, &strings, limit) {
        Ok(Some(program)) => program,
        Ok(None) => return Err(BootFault::NoRoom),
        Err(_) => return Err(BootFault::NoMemory),
    };
    if !has_room_to_start(state, program.memory.mapped()) {
        return Err(BootFault::NoRoom);
    }
    Ok(first_process(program, plan.break_start))
}

/// The plan of a file.
fn read_plan(file: &[u8]) -> Result<ElfPlan, ElfFault>
    requires { length file.now ≤ 4194304 }
    ensures plan { shown_answer result ≡ plan_of file.now }
    ensures sound { IfOk result (λ plan. IsSound (length file.now) (shown_plan plan)) }
{
    read(&SliceBytes(file))
}

/// The one argument of the first program.
fn init_arguments(alloc: Global) -> Result<Vec<Vec<u8>>, AllocError>
    ensures { IfOk result (λ strings. strings_of strings.items ≡ init_arguments) }
{
    let path = Vec::from_slice(alloc, INIT)?;
    let mut strings = Vec::new(alloc);
    strings.push(path)?;
    Ok(strings)
}

/// The pages that a program in slot 0 may have at most.
fn room_to_start(state: &State) -> u32
    ensures { result ≡ (unix_of state.now).pages + process_pages (at (unix_of state.now).processes 0) - (promised (unix_of state.now) + 1) }
{
    let before = state.pages + state.slots.slot_pages(0);
    before.saturating_sub(state.promised() + 1)
}

/// Whether there is room for a program of so many pages in slot 0.
fn has_room_to_start(state: &State, pages: u32) -> bool
    requires { pages ≤ 2 ^ 19 }
    ensures { (file : List ℕ) (plan : LoadPlan) → pages ≡ mapped_pages (image file plan.loads init_arguments) → result ≡ has_room (started (unix_of state.now) file plan) }
{
    let after = state.promised() + pages + 1;
    let before = state.pages + state.slots.slot_pages(0);
    after <= before
}

/// Process 1 with its program.
fn first_process(program: Program, break_start: u32) -> Process
    requires { break_start ≤ 0x7FFE_0000 }
    ensures { (file : List ℕ) (plan : LoadPlan) → program.registers ≡ start_registers plan.entry init_arguments → memory_of program.memory ≡ image file plan.loads init_arguments → break_start ≡ plan.break_start
        → process_of result ≡ first_process file plan }
{
    let mut descriptors = [None; 32];
    descriptors[0] = Some(0);
    descriptors[1] = Some(0);
    descriptors[2] = Some(0);
    Process {
        pid: 1,
        parent: 0,
        registers: program.registers,
        memory: program.memory,
        heap: Heap {
            start: break_start,
            end: break_start,
        },
        descriptors,
        phase: Phase::Run,
    }
}
