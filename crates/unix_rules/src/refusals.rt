//! Which refusals each call may meet.

ghost use Rattle.unix_rules.specs.RefusalLaws.{KeeperRows, ServerRows, PipeWantsInode};

/// The keeper refuses a call with the refusals of its row alone.
pub fn keeper_rows()
    ensures { KeeperRows }
{}

/// A server refuses a call that was sent with the refusals of its row alone.
pub fn server_rows()
    ensures { ServerRows }
{}

/// Pipe is refused for want of an inode where none is free, and never for want of a description.
pub fn pipe_wants_inode()
    ensures { PipeWantsInode }
{}
