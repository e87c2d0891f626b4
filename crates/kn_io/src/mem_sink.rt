//! A buffer in memory, with calls that fail as they are told to.
ghost use Rattle.std.specs.Prelude.{◌≤◌, vec_len, vec_capacity};

use crate::call_counter::CallCounter;
use crate::failures::{Failed, NoMemory};
use crate::sink::Sink;
use std::alloc::Global;

/// Keeps the bytes that are put, as long as there is room, and fails at the calls that it is told.
#[derive(Drop)]
pub struct MemSink {
    bytes: Vec<u8>,
    room: usize,
    calls: CallCounter,
    ghost within: { vec_len bytes ≤ room },
    ghost reserved: { room ≤ vec_capacity bytes },
}

impl MemSink {
    ghost use Rattle.std.specs.Prelude.{◌≡◌, [], IfOk};
    ghost use Rattle.kn_io.specs.Calls.{no_calls};
    ghost use Rattle.kn_io.specs.InMemory.{sink_bytes, sink_room, sink_calls};

    /// An empty sink for `room` bytes, for which it takes the memory at once. The calls of `put` that
    /// are numbered in `fails`, from 0, fail.
    ///
    /// # Errors
    ///
    /// `NoMemory` where host memory ran out.
    pub fn new(alloc: Global, room: usize, fails: Vec<u32>) -> Result<MemSink, NoMemory>
        ensures bytes { IfOk result (λ sink. sink_bytes sink ≡ []) }
        ensures room { IfOk result (λ sink. sink_room sink ≡ room) }
        ensures calls { IfOk result (λ sink. sink_calls sink ≡ no_calls fails.items) }
    {
        match Vec::with_capacity(alloc, room) {
            Ok(bytes) => Ok(MemSink {
                bytes,
                room,
                calls: CallCounter::new(fails),
            }),
            Err(_) => Err(NoMemory),
        }
    }

    /// The bytes put so far.
    pub fn bytes(&self) -> &[u8]
        ensures { result.now ≡ sink_bytes self.now }
    {
        self.bytes.as_slice()
    }
}

impl Sink for MemSink {
    ghost use Rattle.std.specs.Prelude.{◌≡◌, ◌+◌, ◌++◌, ◌||◌, nat_lt, length, Some, OnOk, OnErr};
    ghost use Rattle.std.specs.Result.{is_err};
    ghost use Rattle.kn_io.specs.Calls.{fails_next, after_call};
    ghost use Rattle.kn_io.specs.Faults.{Rose};
    ghost use Rattle.kn_io.specs.Sink.{GrewByPrefix};
    ghost use Rattle.kn_io.specs.InMemory.{sink_bytes, sink_room, sink_calls, sink_faults, sink_grew, sink_grew-nothing, sink_grew-joined, sink_grew-told};

    ghost told = { λ s. Some (sink_bytes s) };

    ghost grew = { sink_grew };

    ghost faults = { sink_faults };

    /// Appends the bytes.
    ///
    /// # Errors
    ///
    /// `Failed` exactly where the number of this call is listed or the bytes would pass the room.
    /// Nothing is put then.
    #[tactic(auto, using(crate::proofs::SinkParts::parts))]
    fn put(&mut self, bytes: &[u8]) -> Result<(), Failed>
        ensures grew { OnOk result (sink_grew self.old bytes.now self.new) }
        ensures part { OnErr result (GrewByPrefix sink_grew self.old bytes.now self.new) }
        ensures same { OnOk result (sink_faults self.new ≡ sink_faults self.old) }
        ensures counted { sink_faults self.old ≤ sink_faults self.new }
        ensures failed { OnErr result (Rose (sink_faults self.old) (sink_faults self.new)) }
        ensures nothing { OnErr result (sink_bytes self.new ≡ sink_bytes self.old) }
        ensures room { sink_room self.new ≡ sink_room self.old }
        ensures fails { is_err result ≡ (fails_next (sink_calls self.old) || nat_lt (sink_room self.old) (length (sink_bytes self.old ++ bytes.now))) }
        ensures calls { sink_calls self.new ≡ after_call (sink_calls self.old) (is_err result) }
    {
        let fits = bytes.len() <= self.room - self.bytes.len();
        self.calls.count_call(fits)?;
        match self.bytes.extend_from_slice(bytes) {
            Ok(()) => Ok(()),
            Err(_) => unreachable!(),
        }
    }

    ghost grew_nothing = { sink_grew-nothing };

    ghost grew_joined = { sink_grew-joined };

    ghost told_grew = { sink_grew-told };
}
