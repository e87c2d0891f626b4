//! The machine before anything is stored in it.

ghost use Rattle.std.specs.Prelude.{◌≡◌, ◌≤◌, IfOk};
ghost use Rattle.unix_model.specs.Boot.{empty_machine};
ghost use Rattle.flat_state.specs.StateView.{unix_of};

use flat_files::Files;
use flat_state::{Slots, State};
use std::alloc::{AllocError, Global};

/// A machine that may promise `pages` pages, 64 to 16,384, and gives each slot `quantum` turns in a row, 1 to 10,000. It
/// has the console and the empty root.
#[tactic(auto, unfolding(unix_model::specs::Boot::empty_machine))]
pub fn new(alloc: Global, pages: u32, quantum: u32) -> Result<State, AllocError>
    requires pages { (64 ≤ pages) × (pages ≤ 16384) }
    requires quantum { (1 ≤ quantum) × (quantum ≤ 10000) }
    ensures { IfOk result (λ state. unix_of state ≡ empty_machine pages quantum) }
{
    let slots = match Slots::new(alloc) {
        Ok(slots) => slots,
        Err(fault) => return Err(fault),
    };
    let files = match Files::new(alloc) {
        Ok(files) => files,
        Err(fault) => return Err(fault),
    };
    Ok(State {
        slots,
        files,
        next_pid: 1,
        pages,
        quantum,
        position: 0,
    })
}
