//! What was done to a disk in memory.
ghost use Rattle.std.specs.Prelude.{◌≡◌, ◌≤◌, ◌+◌, ◌*◌, ◌/◌, length, All, vec_len, vec_capacity};
ghost use Rattle.kn_disk.specs.Changes.{IsWithin};

use crate::change::Change;
use crate::replay::{replay, settled_count, spoil};
use kn_io::NoMemory;
use std::alloc::Global;

/// All changes of a disk, in the order in which they were made, and the bytes that were written.
#[derive(Drop)]
pub(crate) struct History {
    changes: Vec<Change>,
    log: Vec<u8>,
    size: u64,
    ghost within: { All (IsWithin (length log.items)) changes.items },
    ghost taken: { 16 * vec_len changes + vec_len log ≤ size },
    ghost reserved: { size / 16 ≤ vec_capacity changes },
    ghost reserved_bytes: { size ≤ vec_capacity log },
}

impl History {
    ghost use Rattle.std.specs.Prelude.{[], ◌∷◌, IfOk, OnOk, nat_le};
    ghost use Rattle.kn_disk.specs.Steps.{Step, Written, Cut, Synced, contents_after, spoiled, settled, pending};
    ghost use Rattle.kn_disk.specs.History.{kept_steps, taken_of, size_of};

    /// A history of `size` bytes in which nothing was done. It takes all its memory.
    ///
    /// # Errors
    ///
    /// `NoMemory` where host memory ran out.
    #[tactic(auto, using(crate::proofs::HistoryLaws::noting))]
    pub(crate) fn new(alloc: Global, size: u64) -> Result<History, NoMemory>
        ensures steps { IfOk result (λ history. kept_steps history ≡ []) }
        ensures taken { IfOk result (λ history. taken_of history ≡ 0) }
        ensures size { IfOk result (λ history. size_of history ≡ size) }
    {
        let changes = match Vec::with_capacity(alloc, (size / 16) as usize) {
            Ok(changes) => changes,
            Err(_) => return Err(NoMemory),
        };
        match Vec::with_capacity(alloc, size as usize) {
            Ok(log) => Ok(History { changes, log, size }),
            Err(_) => Err(NoMemory),
        }
    }

    /// Whether one more change with so many written bytes fits: it takes 16 bytes, and these.
    pub(crate) fn fits(&self, bytes: usize) -> bool
        ensures { result ≡ nat_le (taken_of self.now + 16 + bytes) (size_of self.now) }
    {
        let left = self.size - (16 * self.changes.len() + self.log.len()) as u64;
        left >= 16 && left - 16 >= bytes as u64
    }

    /// Notes a write.
    #[tactic(auto, using(crate::proofs::HistoryLaws::noting))]
    pub(crate) fn note_write(&mut self, at: u64, from: &[u8])
        requires { taken_of self.old + 16 + length from.now ≤ size_of self.old }
        ensures steps { kept_steps self.new ≡ Written at from.now ∷ kept_steps self.old }
        ensures taken { taken_of self.new ≡ taken_of self.old + (16 + length from.now) }
        ensures size { size_of self.new ≡ size_of self.old }
    {
        let change = Change::Written {
            at,
            from: self.log.len(),
            count: from.len(),
        };
        match self.log.extend_from_slice(from) {
            Ok(()) => {}
            Err(_) => unreachable!(),
        }
        self.changes.push_reserved(change);
    }

    /// Notes a change of the length.
    #[tactic(auto, using(crate::proofs::HistoryLaws::noting))]
    pub(crate) fn note_cut(&mut self, length: u64)
        requires { taken_of self.old + 16 ≤ size_of self.old }
        ensures steps { kept_steps self.new ≡ Cut length ∷ kept_steps self.old }
        ensures taken { taken_of self.new ≡ taken_of self.old + 16 }
        ensures size { size_of self.new ≡ size_of self.old }
    {
        self.changes.push_reserved(Change::Cut { length });
    }

    /// Notes a sync.
    #[tactic(auto, using(crate::proofs::HistoryLaws::noting))]
    pub(crate) fn note_sync(&mut self)
        requires { taken_of self.old + 16 ≤ size_of self.old }
        ensures steps { kept_steps self.new ≡ Synced ∷ kept_steps self.old }
        ensures taken { taken_of self.new ≡ taken_of self.old + 16 }
        ensures size { size_of self.new ≡ size_of self.old }
    {
        self.changes.push_reserved(Change::Synced);
    }

    /// Does to bytes what was done up to the last sync.
    ///
    /// # Errors
    ///
    /// `NoMemory` where host memory ran out.
    #[tactic(auto, using(crate::proofs::ReplayLaws::settling))]
    pub(crate) fn replay_settled(&self, bytes: &mut Vec<u8>) -> Result<(), NoMemory>
        ensures { OnOk result (bytes.new.items ≡ contents_after bytes.old.items (settled (kept_steps self.now))) }
    {
        let count = settled_count(&self.changes);
        match replay(bytes, &self.changes[..count], &self.log) {
            Ok(()) => Ok(()),
            Err(_) => Err(NoMemory),
        }
    }

    /// Puts a byte wherever something was written since the last sync.
    #[tactic(auto, using(crate::proofs::ReplayLaws::settling))]
    pub(crate) fn spoil_pending(&self, bytes: &mut Vec<u8>, byte: u8)
        ensures { bytes.new.items ≡ spoiled byte bytes.old.items (pending (kept_steps self.now)) }
    {
        let count = settled_count(&self.changes);
        spoil(bytes, &self.changes[count..], byte, &self.log);
    }
}
