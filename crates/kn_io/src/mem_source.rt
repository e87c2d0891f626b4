//! Bytes in memory, with calls that fail as they are told to.
ghost use Rattle.std.specs.Prelude.{◌≡◌, ◌≤◌, Some, OnOk, OnErr};
ghost use Rattle.std.specs.Result.{is_err};
ghost use Rattle.kn_io.specs.Faults.{Rose};
ghost use Rattle.kn_io.specs.Source.{Gives};
ghost use Rattle.kn_io.specs.Calls.{no_calls, fails_next, after_call};
ghost use Rattle.kn_io.specs.InMemory.{source_left, source_calls, source_faults};

use crate::byte_source::ByteSource;
use crate::call_counter::CallCounter;
use crate::failures::Failed;
use crate::source::Source;

/// Gives the bytes of a list, and fails at the calls that it is told.
#[derive(Drop)]
pub struct MemSource {
    bytes: ByteSource,
    calls: CallCounter,
}

impl MemSource {
    /// A source that gives `bytes`. The calls of `next` that are numbered in `fails`, from 0, fail.
    pub fn new(bytes: Vec<u8>, fails: Vec<u32>) -> MemSource
        ensures left { source_left result ≡ bytes.items }
        ensures calls { source_calls result ≡ no_calls fails.items }
    {
        MemSource {
            bytes: ByteSource::new(bytes),
            calls: CallCounter::new(fails),
        }
    }

    /// The bytes still to come.
    pub fn rest(&self) -> &[u8]
        ensures { result.now ≡ source_left self.now }
    {
        self.bytes.rest()
    }
}

impl Source for MemSource {
    ghost left = { λ s. Some (source_left s) };

    ghost faults = { λ s. source_faults s };

    /// The next byte.
    ///
    /// # Errors
    ///
    /// `Failed` exactly where the number of this call is listed.
    fn next(&mut self) -> Result<Option<u8>, Failed>
        ensures gives { Gives (Some (source_left self.old)) result (Some (source_left self.new)) }
        ensures same { OnOk result (source_faults self.new ≡ source_faults self.old) }
        ensures counted { source_faults self.old ≤ source_faults self.new }
        ensures failed { OnErr result (Rose (source_faults self.old) (source_faults self.new)) }
        ensures fails { is_err result ≡ fails_next (source_calls self.old) }
        ensures calls { source_calls self.new ≡ after_call (source_calls self.old) (is_err result) }
    {
        self.calls.count_call(true)?;
        self.bytes.next()
    }
}
