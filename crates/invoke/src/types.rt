//! What an invocation carries, and why one is refused.

use kn_base::{Key, NodeId};

/// What goes along with an invocation: the order that is given, four keys, and how many bytes are in the buffer.
#[derive(Clone, Copy, Debug, PartialEq, Eq)]
pub struct Message {
    pub order: u32,
    pub keys: [Key; 4],
    pub length: u16,
}

/// A message that has arrived: the root of the domain that runs now, and the byte by which it tells its callers apart, which
/// is 0 where the message answers a call.
#[derive(Clone, Copy, Debug, PartialEq, Eq)]
pub struct Delivered {
    pub to: NodeId,
    pub byte: u8,
    pub message: Message,
}

/// Why an invocation is refused.
#[derive(Clone, Copy, Debug, PartialEq, Eq)]
pub enum InvokeFault {
    /// The key is none by which a domain may be reached.
    NotStart,
    /// The call that the key would answer was answered, or nobody waits for the answer.
    VoidKey,
    /// The domain that is called isn't available, or the one that calls doesn't run.
    NotAvailable,
}

/// What a process that is parked waits for.
#[derive(Clone, Copy, Debug, PartialEq, Eq)]
pub enum WaitFor {
    /// That the pipe with this inode is read, written or closed.
    Pipe(u32),
    /// That a child ends.
    Child,
}
