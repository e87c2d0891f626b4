//! The calls of a disk in memory.
ghost use Rattle.std.specs.Prelude.{◌≡◌, ◌≤◌, ◌||◌, not, ◌==◌};
ghost use Rattle.std.specs.Result.{is_err};
ghost use Rattle.std.specs.List.{list_any};
ghost use Rattle.kn_io.specs.Calls.{no_calls, after_call};
ghost use Rattle.kn_disk.specs.Calls.{fails_now, is_stopped};

use kn_io::Failed;

/// Which calls fail, how many calls there were, and how many of them failed.
#[derive(Drop)]
pub(crate) struct CallCounter {
    fails: Vec<u32>,
    stop: Option<u32>,
    count: u64,
    faults: u64,
}

impl CallCounter {
    ghost use Rattle.kn_disk.specs.Calls.{counted_calls, stop_of};

    /// A counter before the first call. The calls numbered in `fails`, from 0, fail, and those from
    /// `stop` on.
    pub(crate) fn new(fails: Vec<u32>, stop: Option<u32>) -> CallCounter
        ensures calls { counted_calls result ≡ no_calls fails.items }
        ensures stop { stop_of result ≡ stop }
    {
        CallCounter {
            fails,
            stop,
            count: 0,
            faults: 0,
        }
    }

    /// Counts a call, and its fault where it is one that fails or is not `possible`.
    pub(crate) fn count_call(&mut self, possible: bool) -> Result<(), Failed>
        ensures outcome { is_err result ≡ (fails_now (counted_calls self.old) (stop_of self.old) || not possible) }
        ensures kept { self.old.faults ≤ self.new.faults }
        ensures counted { counted_calls self.new ≡ after_call (counted_calls self.old) (is_err result) }
        ensures stop { stop_of self.new ≡ stop_of self.old }
    {
        let fails = is_listed(&self.fails, self.count) || is_past(self.stop, self.count);
        self.count = self.count.saturating_add(1);
        if fails || !possible {
            self.faults = self.faults.saturating_add(1);
            return Err(Failed);
        }
        Ok(())
    }
}

fn is_listed(numbers: &[u32], number: u64) -> bool
    ensures { result ≡ list_any (λ listed. listed == number) numbers.now }
{
    numbers.iter().any(|listed| u64::from(*listed) == number)
}

fn is_past(stop: Option<u32>, number: u64) -> bool
    ensures { result ≡ is_stopped stop number }
{
    match stop {
        Some(stop) => u64::from(stop) <= number,
        None => false,
    }
}
