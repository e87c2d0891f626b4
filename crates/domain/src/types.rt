//! What a domain is made of.

/// Whether a domain may be called, runs, or waits for the answer to its call.
#[derive(Clone, Copy, Debug, PartialEq, Eq)]
pub enum State {
    Available,
    Running,
    Waiting,
}

/// How far a process is with its turn.
#[derive(Clone, Copy, Debug, PartialEq, Eq)]
pub enum Phase {
    /// It executes instructions.
    Run,
    /// It made a system call, which nobody has taken up.
    Asked,
    /// Its request waits for a server.
    Sent,
    /// Its answer waits for the process.
    Done,
    /// It ends, and what it holds is given back.
    Exiting,
    /// It has ended, and waits for its parent.
    Zombie,
}

/// What tells processes apart, and how far they are: the process's own id and its parent's, the break's start and the break,
/// and the word that a wait for the process answers.
#[derive(Clone, Copy, Debug, PartialEq, Eq)]
pub struct Heads {
    pub pid: u32,
    pub parent: u32,
    pub break_start: u32,
    pub break_end: u32,
    pub word: u32,
}

/// The answer to a system call: the value that it returns, and how many bytes go to which address.
#[derive(Clone, Copy, Debug, PartialEq, Eq)]
pub struct Answer {
    pub value: u32,
    pub at: u32,
    pub length: u16,
}
