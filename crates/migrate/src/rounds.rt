//! Intervals of a machine, each with its checkpoint.
ghost use Rattle.std.specs.Prelude.{◌≡◌, ◌<◌, ◌≤◌, ◌+◌, ◌-◌, ◌^◌, ℕ, List, min, length, OnOk, OnErr};
ghost use Rattle.kn_io.specs.Faults.{Rose};
ghost use Rattle.kn_disk.specs.Images.{LeavesOnly};
ghost use Rattle.obj_store.specs.Ram.{Ram, KeepsMarks};
ghost use Rattle.obj_store.specs.Store.{ram_of};
ghost use Rattle.disk_layout.specs.Saved.{raw, label_in, Machine};
ghost use Rattle.checkpoint.specs.Sizes.{HasSizes, pages_in};
ghost use Rattle.migrate.specs.Rounds.{IsStores, HoldsOne};

use crate::saving::save;
use disk_layout::{DiskFault, Position};
use kn_disk::Disk;
use obj_store::RamStore;

/// What makes the turns of each interval.
pub trait Turns {
    // The blocks after so many intervals more, from these on.
    ghost plan: { Self → List (List ℕ) → ℕ → List (List ℕ) };

    /// Makes the turns of one interval. Each block that they change is marked.
    fn interval(&mut self, store: &mut RamStore)
        requires sizes { HasSizes (ram_of store.old) }
        ensures plan { (n : ℕ) → plan self.new (ram_of store.new).blocks n ≡ plan self.old (ram_of store.old).blocks (n + 1) }
        ensures sizes { HasSizes (ram_of store.new) }
        ensures pages { pages_in (ram_of store.new) ≡ pages_in (ram_of store.old) }
        ensures keeps { KeepsMarks (ram_of store.old) (ram_of store.new) };

    // After no interval the blocks are as they were.
    ghost plan_none: { (s : Self) (blocks : List (List ℕ)) → plan s blocks 0 ≡ blocks };
}

/// A machine that makes no turn in any interval.
#[derive(Clone, Copy, Debug)]
pub struct NoTurns;

impl Turns for NoTurns {
    ghost use Rattle.std.specs.Prelude.{refl};

    ghost plan = { λ _ blocks n. blocks };

    #[tactic(auto, using(crate::proofs::StoreLaws::keeps_none))]
    fn interval(&mut self, _store: &mut RamStore) {}

    ghost plan_none = { λ s blocks. refl };
}

/// Makes so many intervals, each with its checkpoint, on a disk that holds the store. `pages` is the
/// number of the store's bank pages. The result is how many were made and saved, and whether all were.
///
/// # Errors
///
/// `DiskFault` only where the disk's count of faults rose.
pub fn run<D: Disk, M: Turns>(
    disk: &mut D,
    store: &mut RamStore,
    pages: u32,
    at: &mut Position,
    machine: &mut M,
    intervals: u32,
) -> (u32, Result<(), DiskFault>)
    requires below { at.old.generation + intervals < 2 ^ 63 - 1 }
    requires sizes { HasSizes (ram_of store.old) }
    requires pages { pages ≡ pages_in (ram_of store.old) }
    requires order { at.old.moved ≤ at.old.entries }
    requires few { at.old.entries ≤ length (ram_of store.old).blocks }
    requires stores { D.tells → IsStores (ram_of store.old) at.old.generation at.old.entries at.old.moved at.old.synced (D.contents disk.old) (D.image disk.old) }
    requires saved { D.tells → raw (D.contents disk.old) ≡ Machine at.old.generation (ram_of store.old).blocks }

    // Each image since the call holds the start or the end of one of the intervals, under its generation.
    ensures each { D.tells → (c : List ℕ) → D.since disk.new (D.moment disk.old) c → HoldsOne (M.plan machine.old (ram_of store.old).blocks) (D.contents disk.old) at.old.generation 0 intervals c }

    // Each image that a crash now may leave holds the last interval that was saved, or the one after it.
    ensures now { D.tells → (c : List ℕ) → D.image disk.new c → HoldsOne (M.plan machine.old (ram_of store.old).blocks) (D.contents disk.old) at.old.generation result.0 (min intervals (result.0 + 1)) c }
    ensures last { D.tells → OnOk result.1 (raw (D.contents disk.new) ≡ Machine (at.old.generation + intervals) (M.plan machine.old (ram_of store.old).blocks intervals)) }

    // The position counts the intervals that were saved. At Ok disk, store and position agree again.
    ensures generation { at.new.generation ≡ at.old.generation + result.0 }
    ensures stores { D.tells → OnOk result.1 (IsStores (ram_of store.new) at.new.generation at.new.entries at.new.moved at.new.synced (D.contents disk.new) (D.image disk.new)) }
    ensures order { OnOk result.1 (at.new.moved ≤ at.new.entries) }
    ensures few { OnOk result.1 (at.new.entries ≤ length (ram_of store.new).blocks) }
    ensures all { OnOk result.1 (result.0 ≡ intervals) }
    ensures some { OnErr result.1 (result.0 < intervals) }
    ensures same { OnOk result.1 (D.faults disk.new ≡ D.faults disk.old) }
    ensures counted { D.faults disk.old ≤ D.faults disk.new }
    ensures failed { OnErr result.1 (Rose (D.faults disk.old) (D.faults disk.new)) }
{
    'rounds: for i in 0..intervals {
        machine.interval(store);
        match save(disk, store, pages, at) {
            Ok(()) => {}
            Err(fault) => return (i, Err(fault)),
        }
    }
    (intervals, Ok(()))
}
