//! The table of the 64 process slots.

ghost use Rattle.std.specs.Prelude.{◌≡◌, length};

use crate::process::Process;
use flat_memory::free_places;
use std::alloc::{AllocError, Global};

/// The process of each slot, or None where it is free.
#[derive(Drop)]
pub struct SlotTable {
    pub(crate) items: Vec<Option<Process>>,
    ghost full: { length items.items ≡ 64 },
}

impl SlotTable {
    ghost use Rattle.std.specs.Prelude.{◌≡◌, ◌<◌, IfOk, None, Some, option_map};
    ghost use Rattle.unix_model.specs.Tables.{at, with_at, nothing};
    ghost use Rattle.unix_model.specs.Room.{process_pages};
    ghost use Rattle.unix_model.specs.Turn.{ran};
    ghost use Rattle.flat_state.specs.ProcessView.{process_of};
    ghost use Rattle.flat_state.specs.SlotTableView.{slot_table_of};

    /// Slots that are all free.
    #[tactic(auto, unfolding(crate::specs::SlotTableView::slot_table_of))]
    pub fn new(alloc: Global) -> Result<SlotTable, AllocError>
        ensures { IfOk result (λ slots. slot_table_of slots ≡ nothing) }
    {
        Ok(SlotTable {
            items: free_places(alloc, 64)?,
        })
    }

    /// Takes the process out of a slot, which is then free.
    #[tactic(auto, unfolding(crate::specs::SlotTableView::slot_table_of, unix_model::specs::Tables::at))]
    pub fn take(&mut self, slot: u8) -> Option<Process>
        requires { slot < 64 }
        ensures taken { option_map process_of result ≡ at (slot_table_of self.old) slot }
        ensures free { slot_table_of self.new ≡ with_at (slot_table_of self.old) slot None }
    {
        self.items[slot as usize].take()
    }

    /// Puts a process into a slot.
    #[tactic(auto, unfolding(crate::specs::SlotTableView::slot_table_of))]
    pub fn put(&mut self, slot: u8, process: Process)
        requires { slot < 64 }
        ensures { slot_table_of self.new ≡ with_at (slot_table_of self.old) slot (Some (process_of process)) }
    {
        self.items[slot as usize] = Some(process);
    }

    /// The process in a slot executes an instruction.
    #[tactic(auto, unfolding(crate::specs::SlotTableView::slot_table_of, unix_model::specs::Tables::at))]
    pub fn run(&mut self, slot: u8)
        requires { slot < 64 }
        ensures { slot_table_of self.new ≡ with_at (slot_table_of self.old) slot (option_map ran (at (slot_table_of self.old) slot)) }
    {
        match &mut self.items[slot as usize] {
            Some(process) => process.run(),
            None => {}
        }
    }

    /// The pages that the process in a slot promises.
    pub fn pages(&self, slot: u8) -> u32
        requires { slot < 64 }
        ensures { result ≡ process_pages (at (slot_table_of self.now) slot) }
    {
        match self.get(slot) {
            Some(process) => process.pages(),
            None => 0,
        }
    }

    /// The process in a slot.
    #[tactic(auto, unfolding(crate::specs::SlotTableView::slot_table_of, unix_model::specs::Tables::at))]
    pub fn get(&self, slot: u8) -> Option<&Process>
        requires { slot < 64 }
        ensures { option_map (λ process. process_of process.now) result ≡ at (slot_table_of self.now) slot }
    {
        self.items[slot as usize].as_ref()
    }
}
