//! The schedule of a run.

ghost use Rattle.std.specs.Prelude.{◌≡◌, ℕ, ◌<◌, ◌≤◌, true, false};
ghost use Rattle.flat_unix.specs.FlatView.{unix_of};
ghost use Rattle.flat_unix.specs.FreeTurns.{has_nothing_to_do};
ghost use Rattle.unix_model.specs.Calls.{call_of};
ghost use Rattle.unix_model.specs.Schedule as model;
ghost use Rattle.unix_model.specs.Tables.{at};
ghost use Rattle.keynix.specs.Rows.{GivesFree, schedule_later};
ghost use Rattle.keynix.specs.Schedules.{IsInRow, schedule_of};

use crate::given::Given;
use flat_unix::Flat;

/// Which slots get the turns of a run.
#[derive(Drop)]
pub enum Schedule {
    /// The turns go round, each slot gets a quantum of them. The mark says whether the machine was idle when this round
    /// began; it is absent where no round has begun yet.
    Round(Option<bool>),
    /// The turns that are given.
    Given(Given),
}

impl Schedule {
    /// A run begins.
    pub fn begin(&mut self, flat: &Flat)
        ensures { schedule_of self.new ≡ model.schedule_begun call_of (unix_of flat.now) (schedule_of self.old) }
    {
        match self {
            Schedule::Round(mark) => {
                if mark.is_none() {
                    *mark = mark_at(flat, None);
                }
            }
            Schedule::Given(_) => {}
        }
    }

    /// Whether no turn is given any more.
    pub fn is_spent(&self) -> bool
        ensures { result ≡ model.is_spent (schedule_of self.now) }
    {
        match self {
            Schedule::Round(_) => false,
            Schedule::Given(given) => given.is_spent(),
        }
    }

    /// The slot that gets the next turn, where any is given.
    pub fn slot(&self, flat: &Flat) -> u8
        ensures below { result < 64 }
        ensures next { model.is_spent (schedule_of self.now) ≡ false → result ≡ model.next_slot (unix_of flat.now) (schedule_of self.now) }
        ensures in_row { model.is_spent (schedule_of self.now) ≡ false → IsInRow self.now 1 }
    {
        match self {
            Schedule::Round(_) => flat.round_slot(),
            Schedule::Given(given) => given.slot(),
        }
    }

    /// How many turns in a row find nothing to do, where the next one doesn't. Where the turns go round, they are of all the
    /// slots up to one that has something to do.
    pub fn free_row(&self, flat: &Flat) -> u32
        requires given { model.is_spent (schedule_of self.now) ≡ false }
        requires free { has_nothing_to_do (at (unix_of flat.now).processes (model.next_slot (unix_of flat.now) (schedule_of self.now))) ≡ true }
        ensures some { 0 < result }
        ensures row { (number : ℕ) → number ≤ result → GivesFree (unix_of flat.now) (schedule_of self.now) number }
        ensures in_row { (number : ℕ) → number ≤ result → IsInRow self.now number }
    {
        match self {
            Schedule::Round(_) => flat.free_left(),
            Schedule::Given(given) => given.row(),
        }
    }

    /// Whether the last turn has ended a round that began idle.
    pub fn ends_idle(&self, flat: &Flat) -> bool
        ensures { result ≡ model.ends_idle (unix_of flat.now) (schedule_of self.now) }
    {
        match self {
            Schedule::Round(Some(idle)) => flat.position() == 0 && *idle,
            Schedule::Round(None) => false,
            Schedule::Given(_) => false,
        }
    }

    /// So many turns of a row were made, and have led to this machine.
    pub fn pass(&mut self, flat: &Flat, turns: u32)
        requires { IsInRow self.old turns }
        ensures { schedule_of self.new ≡ schedule_later (unix_of flat.now) turns (schedule_of self.old) }
    {
        match self {
            Schedule::Round(mark) => *mark = mark_at(flat, *mark),
            Schedule::Given(given) => given.pass(turns),
        }
    }
}

/// Where a round begins, whether the machine is idle, and else the mark of the round so far.
#[inline(always)]
fn mark_at(flat: &Flat, mark: Option<bool>) -> Option<bool>
    ensures { result ≡ model.mark_at call_of (unix_of flat.now) mark }
{
    if flat.position() == 0 {
        Some(flat.is_idle())
    } else {
        mark
    }
}
