//! A process, and the steps that it makes by itself.

use crate::answer::Answer;
use crate::heap::Heap;
use crate::pace::Pace;
use crate::phases::{is_description, phase_after};
use crate::sent_call::SentCall;
use flat_memory::{Memory, Program, execute};
use std::alloc::{AllocError, Global};
use unix_model::{Errno, Regs};

/// Where a process stands between two turns.
#[derive(Drop)]
pub enum Phase {
    /// It executes instructions.
    Run,
    /// It has asked for a system call.
    Asked,
    /// Its call is on its way to a server.
    Sent(SentCall),
    /// Its call is answered, with this value.
    Done(u32),
    /// Its call is answered, with bytes for its memory.
    Gives(Answer),
    /// It ends, with this wait word.
    Exiting(u32),
    /// It has ended, with this wait word.
    Zombie(u32),
}

/// A process.
#[derive(Drop)]
pub struct Process {
    pub pid: u32,
    pub parent: u32,
    pub registers: Regs,
    pub memory: Memory,
    pub heap: Heap,
    /// The number of the open description of each descriptor, or None where it is closed.
    pub descriptors: [Option<u16>; 32],
    pub phase: Phase,
}

impl Process {
    ghost use Rattle.std.specs.Prelude.{◌≡◌, ◌+◌, ◌<◌, ◌≤◌, ◌^◌, [], IfOk, IfSome, length};
    ghost use Rattle.unix_model.specs.Process as model;
    ghost use Rattle.unix_model.specs.Process.{argument, lowest_open, lowest_closed};
    ghost use Rattle.unix_model.specs.ProcessCalls.{child, is_ending, with_program};
    ghost use Rattle.unix_model.specs.Calls.{refusal_word};
    ghost use Rattle.unix_model.specs.Memory.{mapped_pages, with_break};
    ghost use Rattle.unix_model.specs.Turn.{ran, returned, signal_of, phase_after as phase_after_outcome};
    ghost use Rattle.std.specs.List.{list_any};
    ghost use Rattle.unix_model.specs.Room.{live_pages};
    ghost use Rattle.unix_model.specs.State.{adopted, names_description, phase_word};
    ghost use Rattle.std.specs.Prelude.{ℕ, List};
    ghost use Rattle.unix_model.specs.Elf.{LoadPlan};
    ghost use Rattle.unix_model.specs.Loading.{image, start_registers};
    ghost use Rattle.flat_memory.specs.MemoryView.{memory_of};
    ghost use Rattle.flat_state.specs.PaceView.{phase_pace};
    ghost use Rattle.flat_state.specs.ProcessView.{process_of, phase_of};

    /// One instruction.
    #[tactic(auto, unfolding(unix_model::specs::Turn::ran))]
    pub fn run(&mut self)
        ensures { process_of self.new ≡ ran (process_of self.old) }
    {
        let outcome = execute(&mut self.registers, &mut self.memory);
        self.phase = phase_after(outcome);
    }

    /// The return of an answer: the value in `a0`, and the instruction after the call.
    #[tactic(auto, unfolding(unix_model::specs::Turn::returned, unix_model::specs::Memory::with_bytes))]
    pub fn give_back(mut self, value: u32) -> Process
        ensures { process_of result ≡ returned (process_of self) value 0 [] }
    {
        self.registers.x[10] = value;
        self.registers.pc = self.registers.pc.wrapping_add(4);
        self.phase = Phase::Run;
        self
    }

    /// The same of an answer with bytes, which go to memory.
    #[tactic(auto, unfolding(unix_model::specs::Turn::returned))]
    pub fn give_back_with(mut self, value: u32, address: u32, bytes: &[u8]) -> Process
        requires { length bytes.now ≤ 4096 }
        ensures { process_of result ≡ returned (process_of self) value address bytes.now }
    {
        self.memory.write(address, bytes);
        self.registers.x[10] = value;
        self.registers.pc = self.registers.pc.wrapping_add(4);
        self.phase = Phase::Run;
        self
    }

    /// The process in another phase.
    pub fn in_phase(mut self, phase: Phase) -> Process
        ensures { process_of result ≡ model.in_phase (process_of self) (phase_of phase) }
    {
        self.phase = phase;
        self
    }

    /// The process with a refused call.
    pub fn refused(self, errno: Errno) -> Process
        ensures { process_of result ≡ model.in_phase (process_of self) (model.answered (refusal_word errno)) }
    {
        self.in_phase(Phase::Done(errno.number().wrapping_neg()))
    }

    /// The process with another break, which brk answers with.
    pub fn with_break(mut self, alloc: Global, address: u32) -> Result<Process, AllocError>
        requires { (self.heap.start ≤ address) × (address ≤ 0x7FFE_0000) }
        ensures { IfOk result (λ process. process_of process ≡ model.in_phase (record (process_of self) { memory = with_break (process_of self).memory self.heap.start self.heap.end address; break_end = address }) (model.answered address)) }
    {
        let heap = self.heap;
        self.memory.set_break(alloc, heap.start, heap.end, address)?;
        self.heap = Heap {
            start: heap.start,
            end: address,
        };
        self.phase = Phase::Done(address);
        Ok(self)
    }

    /// A child as fork makes it.
    pub fn child(&self, pid: u32) -> Result<Process, AllocError>
        ensures { IfOk result (λ process. process_of process ≡ child pid (process_of self.now)) }
    {
        let memory = self.memory.copy()?;
        Ok(Process {
            pid,
            parent: self.pid,
            registers: self.registers,
            memory,
            heap: self.heap,
            descriptors: self.descriptors,
            phase: Phase::Done(0),
        })
    }

    /// The process with a descriptor of a description.
    pub fn with_descriptor(mut self, number: u32, description: u16) -> Process
        requires { number < 32 }
        ensures { process_of result ≡ model.with_descriptor (process_of self) number description }
    {
        self.descriptors[number as usize] = Some(description);
        self
    }

    /// The lowest descriptor that is closed.
    #[tactic(auto, using(unix_model::proofs::TableLaws::steps), unfolding(unix_model::specs::Process::lowest_closed))]
    pub fn lowest_closed(&self) -> Option<u32>
        ensures least { result ≡ lowest_closed (process_of self.now) }
        ensures inside { IfSome result (λ number. number < 32) }
    {
        let mut lowest = None;
        for number in 0..32 {
            if lowest.is_none() && self.descriptor(number).is_none() {
                lowest = Some(number);
            }
        }
        lowest
    }

    /// An argument of a system call, from `a0` (0) to `a7` (7).
    pub fn argument(&self, number: usize) -> u32
        requires { number < 8 }
        ensures { result ≡ argument (process_of self.now) number }
    {
        self.registers.x[10 + number]
    }

    /// The description of a descriptor, or None where it is closed or there is no such descriptor.
    pub fn descriptor(&self, number: u32) -> Option<u16>
        ensures { result ≡ model.descriptor (process_of self.now) number }
    {
        if number < 32 {
            self.descriptors[number as usize]
        } else {
            None
        }
    }

    /// The lowest descriptor that is open.
    #[tactic(auto, using(unix_model::proofs::TableLaws::steps), unfolding(unix_model::specs::Process::lowest_open))]
    pub fn lowest_open(&self) -> Option<u32>
        ensures least { result ≡ lowest_open (process_of self.now) }
        ensures inside { IfSome result (λ number. number < 32) }
    {
        let mut lowest = None;
        for number in 0..32 {
            if lowest.is_none() && self.descriptor(number).is_some() {
                lowest = Some(number);
            }
        }
        lowest
    }

    /// The process with a descriptor closed.
    pub fn without_descriptor(mut self, number: u32) -> Process
        requires { number < 32 }
        ensures { process_of result ≡ model.without_descriptor (process_of self) number }
    {
        self.descriptors[number as usize] = None;
        self
    }

    /// What is left of a process that has ended.
    pub fn into_zombie(mut self, alloc: Global, word: u32) -> Result<Process, AllocError>
        ensures { IfOk result (λ process. process_of process ≡ model.zombie (process_of self) word) }
    {
        self.registers = Regs { x: [0; 32], pc: 0 };
        self.memory = Memory::new(alloc)?;
        self.descriptors = [None; 32];
        self.phase = Phase::Zombie(word);
        Ok(self)
    }

    /// Whether it has a descriptor of this description.
    pub fn has_descriptor(&self, description: u16) -> bool
        ensures { result ≡ list_any (names_description description) (process_of self.now).descriptors }
    {
        self.descriptors
            .iter()
            .any(|number| is_description(*number, description))
    }

    /// The process, a child of process 1 where it was a child of the one that ended.
    pub fn adopted(mut self, ended: u32) -> Process
        ensures { process_of result ≡ adopted ended (process_of self) }
    {
        if self.parent == ended {
            self.parent = 1;
        }
        self
    }

    /// Whether it ends already.
    pub fn is_ending(&self) -> bool
        ensures { result ≡ is_ending (process_of self.now).phase }
    {
        match self.phase {
            Phase::Exiting(_) | Phase::Zombie(_) => true,
            _ => false,
        }
    }

    /// The process with a program in place of what it was; its descriptors stay.
    #[tactic(auto, unfolding(unix_model::specs::ProcessCalls::with_program))]
    pub fn with_program(mut self, program: Program, break_start: u32) -> Process
        requires { break_start ≤ 0x7FFE_0000 }
        ensures { (file : List ℕ) (plan : LoadPlan) (strings : List (List ℕ)) → program.registers ≡ start_registers plan.entry strings → memory_of program.memory ≡ image file plan.loads strings → break_start ≡ plan.break_start
            → process_of result ≡ with_program (process_of self) file plan strings }
    {
        self.registers = program.registers;
        self.memory = program.memory;
        self.heap = Heap {
            start: break_start,
            end: break_start,
        };
        self.phase = Phase::Run;
        self
    }

    /// The wait word, where it has ended.
    pub fn word(&self) -> Option<u32>
        ensures { result ≡ phase_word (process_of self.now).phase }
    {
        match self.phase {
            Phase::Zombie(word) => Some(word),
            _ => None,
        }
    }

    /// What a turn of it has to do.
    pub fn pace(&self) -> Pace
        ensures { result ≡ phase_pace (process_of self.now).phase }
    {
        match self.phase {
            Phase::Run => Pace::Running,
            Phase::Zombie(_) => Pace::Free,
            _ => Pace::Other,
        }
    }

    /// The pages that it promises.
    pub fn pages(&self) -> u32
        ensures { result ≡ live_pages (process_of self.now) (process_of self.now).phase }
    {
        match self.phase {
            Phase::Zombie(_) => 0,
            _ => self.memory.mapped() + 1,
        }
    }
}
