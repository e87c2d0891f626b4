//! The calls of an object in memory.
ghost use Rattle.std.specs.Prelude.{◌≡◌, ◌≤◌, ◌||◌, not, ◌==◌};
ghost use Rattle.std.specs.Result.{is_err};
ghost use Rattle.std.specs.List.{list_any};
ghost use Rattle.kn_io.specs.Calls.{Calls, no_calls, fails_next, after_call};

use crate::failures::Failed;

/// Which calls fail, how many calls there were, and how many of them failed.
#[derive(Drop)]
pub(crate) struct CallCounter {
    fails: Vec<u32>,
    count: u64,
    faults: u64,
}

impl CallCounter {
    ghost use Rattle.kn_io.specs.InMemory.{counted_calls};

    /// A counter before the first call. The calls numbered in `fails`, from 0, fail.
    pub(crate) fn new(fails: Vec<u32>) -> CallCounter
        ensures { counted_calls result ≡ no_calls fails.items }
    {
        CallCounter {
            fails,
            count: 0,
            faults: 0,
        }
    }

    /// Counts a call, and its fault where it is one that fails or is not `possible`.
    pub(crate) fn count_call(&mut self, possible: bool) -> Result<(), Failed>
        ensures outcome { is_err result ≡ (fails_next (counted_calls self.old) || not possible) }
        ensures kept { self.old.faults ≤ self.new.faults }
        ensures counted { counted_calls self.new ≡ after_call (counted_calls self.old) (is_err result) }
    {
        let fails = is_listed(&self.fails, self.count);
        self.count = self.count.saturating_add(1);
        if fails || !possible {
            self.faults = self.faults.saturating_add(1);
            return Err(Failed);
        }
        Ok(())
    }
}

fn is_listed(numbers: &[u32], number: u64) -> bool
    ensures { result ≡ list_any (λ listed. listed == number) numbers.now }
{
    numbers.iter().any(|listed| u64::from(*listed) == number)
}
