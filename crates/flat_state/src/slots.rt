//! The 64 process slots.

ghost use Rattle.std.specs.Prelude.{◌≡◌};
ghost use Rattle.unix_model.specs.Room.{process_pages};
ghost use Rattle.unix_model.specs.Tables.{at, sum_below};
ghost use Rattle.flat_state.specs.SlotTableView.{slot_table_of};

use crate::ended_child::{EndedChild, lesser_pid};
use crate::pace::Pace;
use crate::process::Process;
use crate::slot_table::SlotTable;
use std::alloc::{AllocError, Global};

/// The process slots, and the pages that their processes promise.
#[derive(Drop)]
pub struct Slots {
    table: SlotTable,
    pages: u32,
    ghost counted: { pages ≡ sum_below (λ slot. process_pages (at (slot_table_of table) slot)) 64 },
}

impl Slots {
    ghost use Rattle.std.specs.Prelude.{◌≡◌, ◌≢◌, ◌<◌, ◌≤◌, ◌^◌, IfOk, IfSome, None, Some, is_none, not, ◌&&◌, ◌==◌, option_map, if◌then◌else◌};
    ghost use Rattle.unix_model.specs.ProcessCalls.{ended_in, is_waited, least_ended};
    ghost use Rattle.flat_state.specs.EndedChildView.{ended_child_of};
    ghost use Rattle.unix_model.specs.State.{adopted, has_descriptor, has_pid, process_names, process_word, slot_of};
    ghost use Rattle.unix_model.specs.Tables.{any_below, at, least_below, with_at, nothing, sum_below};
    ghost use Rattle.unix_model.specs.Room.{process_pages};
    ghost use Rattle.unix_model.specs.Turn.{ran};
    ghost use Rattle.flat_state.specs.PaceView.{pace_of};
    ghost use Rattle.flat_state.specs.ProcessView.{process_of};
    ghost use Rattle.flat_state.specs.SlotsView.{slots_of};

    /// Slots that are all free.
    #[tactic(auto, using(unix_model::proofs::RoomLaws::no_pages))]
    pub fn new(alloc: Global) -> Result<Slots, AllocError>
        ensures { IfOk result (λ slots. slots_of slots ≡ nothing) }
    {
        let table = SlotTable::new(alloc)?;
        Ok(Slots { table, pages: 0 })
    }

    /// The process of a slot.
    pub fn get(&self, slot: u8) -> Option<&Process>
        requires { slot < 64 }
        ensures { option_map (λ process. process_of process.now) result ≡ at (slots_of self.now) slot }
    {
        self.table.get(slot)
    }

    /// Takes the process out of a slot, which is then free.
    #[tactic(auto, using(unix_model::proofs::RoomLaws::slot_pages))]
    pub fn take(&mut self, slot: u8) -> Option<Process>
        requires { slot < 64 }
        ensures taken { option_map process_of result ≡ at (slots_of self.old) slot }
        ensures free { slots_of self.new ≡ with_at (slots_of self.old) slot None }
    {
        let pages = self.pages - self.slot_pages(slot);
        let process = self.table.take(slot);
        self.pages = pages;
        process
    }

    /// Puts a process into a slot.
    #[tactic(auto, using(unix_model::proofs::RoomLaws::slot_pages))]
    pub fn put(&mut self, slot: u8, process: Process)
        requires { slot < 64 }
        ensures { slots_of self.new ≡ with_at (slots_of self.old) slot (Some (process_of process)) }
    {
        let pages = self.pages - self.slot_pages(slot) + process.pages();
        self.table.put(slot, process);
        self.pages = pages;
    }

    /// The process of a slot executes an instruction.
    #[tactic(auto, using(unix_model::proofs::RoomLaws::slot_pages))]
    pub fn run(&mut self, slot: u8)
        requires { slot < 64 }
        ensures { slots_of self.new ≡ with_at (slots_of self.old) slot (option_map ran (at (slots_of self.old) slot)) }
    {
        let others = self.pages - self.table.pages(slot);
        self.table.run(slot);
        self.pages = others + self.table.pages(slot);
    }

    /// The least free slot where a process that was taken out is put back.
    #[tactic(auto, using(unix_model::proofs::TableLaws::steps))]
    pub fn free_slot_beside(&self, beside: u8) -> Option<u8>
        ensures least { result ≡ least_below (λ slot. not (slot == beside) && is_none (at (slots_of self.now) slot)) 64 }
        ensures free { IfSome result (λ slot. (slot < 64) × (slot ≢ beside) × (at (slots_of self.now) slot ≡ None)) }
    {
        let mut least = None;
        for slot in 0..64u8 {
            if least.is_none() && !(slot == beside) && self.is_free(slot) {
                least = Some(slot);
            }
        }
        least
    }

    /// Whether a slot is free.
    fn is_free(&self, slot: u8) -> bool
        requires { slot < 64 }
        ensures { result ≡ is_none (at (slots_of self.now) slot) }
    {
        self.table.get(slot).is_none()
    }

    /// The slot of the process of a pid.
    #[tactic(auto, using(unix_model::proofs::TableLaws::steps), unfolding(unix_model::specs::State::slot_of))]
    pub fn slot_of(&self, pid: u32) -> Option<u8>
        ensures least { result ≡ slot_of (slots_of self.now) pid }
        ensures inside { IfSome result (λ slot. slot < 64) }
    {
        let mut found = None;
        for slot in 0..64u8 {
            if found.is_none() && self.has_pid(slot, pid) {
                found = Some(slot);
            }
        }
        found
    }

    /// Whether the process of a slot has a pid.
    fn has_pid(&self, slot: u8, pid: u32) -> bool
        requires { slot < 64 }
        ensures { result ≡ has_pid pid (at (slots_of self.now) slot) }
    {
        match self.table.get(slot) {
            Some(process) => process.pid == pid,
            None => false,
        }
    }

    /// Whether some process is a child that is waited for.
    #[tactic(auto, using(unix_model::proofs::TableLaws::steps))]
    pub fn has_waited(&self, parent: u32, wanted: u32) -> bool
        ensures { result ≡ any_below (λ n. is_waited parent wanted (at (slots_of self.now) n)) 64 }
    {
        let mut found = false;
        for slot in 0..64u8 {
            found = found || self.is_waited(slot, parent, wanted);
        }
        found
    }

    /// Whether the process of a slot is one.
    fn is_waited(&self, slot: u8, parent: u32, wanted: u32) -> bool
        requires { slot < 64 }
        ensures { result ≡ is_waited parent wanted (at (slots_of self.now) slot) }
    {
        match self.table.get(slot) {
            Some(process) => {
                process.parent == parent && (wanted == u32::MAX || process.pid == wanted)
            }
            None => false,
        }
    }

    /// Of the children that have ended and are waited for the one of least pid.
    #[tactic(auto, using(crate::proofs::WaitLaws::ended))]
    pub fn least_ended(&self, parent: u32, wanted: u32) -> Option<EndedChild>
        ensures least { option_map ended_child_of result ≡ least_ended (slots_of self.now) parent wanted 64 }
        ensures inside { IfSome result (λ ended. ended.slot < 64) }
    {
        let mut least = None;
        for slot in 0..64u8 {
            least = lesser_pid(least, self.ended(slot, parent, wanted));
        }
        least
    }

    /// The process of a slot, where it is one.
    fn ended(&self, slot: u8, parent: u32, wanted: u32) -> Option<EndedChild>
        requires { slot < 64 }
        ensures ended { option_map ended_child_of result ≡ (if is_waited parent wanted (at (slots_of self.now) slot) then ended_in slot (at (slots_of self.now) slot) else None) }
        ensures here { IfSome result (λ ended. ended.slot ≡ slot) }
    {
        if !self.is_waited(slot, parent, wanted) {
            return None;
        }
        match self.table.get(slot) {
            Some(process) => match process.word() {
                Some(word) => Some(EndedChild {
                    slot,
                    pid: process.pid,
                    word,
                }),
                None => None,
            },
            None => None,
        }
    }

    /// Whether some process has a descriptor of this description.
    #[tactic(auto, using(unix_model::proofs::TableLaws::steps))]
    pub fn has_descriptor(&self, description: u16) -> bool
        ensures { result ≡ has_descriptor (slots_of self.now) description }
    {
        let mut found = false;
        for slot in 0..64u8 {
            found = found || self.slot_names(slot, description);
        }
        found
    }

    /// Whether the process of a slot has a descriptor of this description.
    fn slot_names(&self, slot: u8, description: u16) -> bool
        requires { slot < 64 }
        ensures { result ≡ process_names description (at (slots_of self.now) slot) }
    {
        match self.table.get(slot) {
            Some(process) => process.has_descriptor(description),
            None => false,
        }
    }

    /// Makes process 1 the parent of the children of the process that ended.
    #[tactic(auto, using(crate::proofs::SlotLaws::slots))]
    pub fn adopt_orphans(&mut self, ended: u32)
        ensures { slots_of self.new ≡ (λ slot. option_map (adopted ended) (at (slots_of self.old) slot)) }
    {
        for slot in 0..64u8 {
            self.adopt(slot, ended);
        }
    }

    /// The same for one slot.
    #[tactic(auto, using(unix_model::proofs::TableLaws::tables))]
    fn adopt(&mut self, slot: u8, ended: u32)
        requires { slot < 64 }
        ensures { slots_of self.new ≡ with_at (slots_of self.old) slot (option_map (adopted ended) (at (slots_of self.old) slot)) }
    {
        match self.take(slot) {
            Some(process) => self.put(slot, process.adopted(ended)),
            None => {}
        }
    }

    /// The wait word of the process in slot 0, where it has ended.
    pub fn first_word(&self) -> Option<u32>
        ensures { result ≡ process_word (at (slots_of self.now) 0) }
    {
        match self.table.get(0) {
            Some(process) => process.word(),
            None => None,
        }
    }

    /// What a turn of a slot has to do. The process stays where it is.
    pub fn pace(&self, slot: u8) -> Pace
        requires { slot < 64 }
        ensures { result ≡ pace_of (at (slots_of self.now) slot) }
    {
        match self.table.get(slot) {
            Some(process) => process.pace(),
            None => Pace::Free,
        }
    }

    /// The pages that the process of a slot promises.
    pub fn slot_pages(&self, slot: u8) -> u32
        requires { slot < 64 }
        ensures { result ≡ process_pages (at (slots_of self.now) slot) }
    {
        self.table.pages(slot)
    }

    /// The pages that all processes promise.
    #[tactic(auto, using(unix_model::proofs::RoomLaws::slot_pages))]
    pub fn pages(&self) -> u32
        ensures pages { result ≡ sum_below (λ slot. process_pages (at (slots_of self.now) slot)) 64 }
        ensures few { result ≤ 2 ^ 26 }
    {
        self.pages
    }
}
