//! A sink that keeps two numbers of what it gets.
ghost use Rattle.std.specs.Prelude.{◌≡◌, ◌<◌, ◌^◌, ◌+◌, ◌%◌};
ghost use Rattle.std.specs.List.{sum};

use crate::failures::Failed;
use crate::sink::Sink;

/// Keeps the number of bytes that were put, modulo 2^64, and their sum, modulo 2^32. It never fails, and its count of faults
/// is 0.
#[derive(Drop)]
pub struct CountSink {
    count: u64,
    sum: u32,
    ghost count_small: { count < 2 ^ 64 },
    ghost sum_small: { sum < 2 ^ 32 },
}

impl CountSink {
    ghost use Rattle.kn_io.specs.Counting.{counted_bytes, counted_sum};

    /// A sink that got no bytes yet.
    pub fn new() -> CountSink
        ensures count { counted_bytes result ≡ 0 }
        ensures sum { counted_sum result ≡ 0 }
    {
        CountSink { count: 0, sum: 0 }
    }

    /// How many bytes were put, modulo 2^64.
    pub fn count(&self) -> u64
        ensures { result ≡ counted_bytes self.now }
    {
        self.count
    }

    /// The sum of the bytes that were put, modulo 2^32.
    pub fn sum(&self) -> u32
        ensures { result ≡ counted_sum self.now }
    {
        self.sum
    }
}

impl Sink for CountSink {
    ghost use Rattle.std.specs.Prelude.{None, IsOk};
    ghost use Rattle.kn_io.specs.Counting.{GrewCounted, counted-nothing, counted-joined, counted-told};

    ghost told = { λ _. None };

    ghost grew = { GrewCounted };

    ghost faults = { λ _. 0 };

    /// Counts the bytes, and adds them up. It is never `Failed`.
    fn put(&mut self, bytes: &[u8]) -> Result<(), Failed>
        ensures grew { GrewCounted self.old bytes.now self.new }
        ensures ok { IsOk result }
    {
        self.count = self.count.wrapping_add(bytes.len() as u64);
        self.sum = sum_after(self.sum, bytes);
        Ok(())
    }

    ghost grew_nothing = { counted-nothing };

    ghost grew_joined = { counted-joined };

    ghost told_grew = { counted-told };
}

// A sum to which bytes are added, modulo 2^32.
fn sum_after(start: u32, bytes: &[u8]) -> u32
    ensures { result ≡ (start + sum bytes.now) % 2 ^ 32 }
{
    let mut sum = start;
    for byte in bytes {
        sum = sum.wrapping_add(u32::from(*byte));
    }
    sum
}
