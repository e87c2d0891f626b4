//! Single calls, in the words of their readers.

ghost use Rattle.unix_laws.specs.CallLaws.{PipeTakesAtEnd, PipeGivesFront, PipesKept, BootPipesFit, WrittenIsRead, WriteThenRead, NewNameGoes, ForkLeavesChild};

/// What is written to a pipe stands behind what it held, and a pipe never holds more than its limit.
pub fn pipe_takes_at_end()
    ensures { PipeTakesAtEnd }
{}

/// What is read from a pipe is its front, and the rest stays.
pub fn pipe_gives_front()
    ensures { PipeGivesFront }
{}

/// After boot no pipe holds more than its limit.
pub fn boot_pipes_fit()
    ensures { BootPipesFit }
{}

/// After every turn no pipe holds more than its limit.
pub fn pipes_kept()
    ensures { PipesKept }
{}

/// What is written to a file at a place is read there again, and no byte before it changes.
pub fn written_is_read()
    ensures { WrittenIsRead }
{}

/// A write to a file and then a read at its place give back what was written.
pub fn write_then_read()
    ensures { WriteThenRead }
{}

/// A new name that is taken away again leaves each name of its directory with the inode that it had.
pub fn new_name_goes()
    ensures { NewNameGoes }
{}

/// A fork leaves a child that is as its parent in all but its pid, its parent, its phase and its answer.
pub fn fork_leaves_child()
    ensures { ForkLeavesChild }
{}
