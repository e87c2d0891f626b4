//! The outside of the machine: where bytes come from and where they go.
//!
//! A [`Source`] gives bytes one by one and a [`Sink`] takes them in pieces. Each has a count of
//! faults: it rises where a call answers [`Failed`], and stays at every other answer.
#![tactic(auto)]

mod adapters;
mod byte_source;
mod call_counter;
mod count_sink;
mod failures;
mod file_source;
mod mem_sink;
mod mem_source;
mod piece;
mod reading;
mod sink;
mod source;

pub use adapters::{ReadSource, WriteSink};
pub use byte_source::ByteSource;
pub use count_sink::CountSink;
pub use failures::{Failed, NoMemory, ReadFault, WriteFault};
pub use file_source::FileSource;
pub use mem_sink::MemSink;
pub use mem_source::MemSource;
pub use reading::{ReadError, read_up_to};
pub use sink::Sink;
pub use source::Source;
