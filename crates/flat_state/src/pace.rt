//! How the turns of a slot go.

/// What a turn of a slot has to do.
#[derive(Clone, Copy, Debug, PartialEq, Eq)]
pub enum Pace {
    /// Nothing: the slot has no process, or one that has ended.
    Free,
    /// An instruction of its process.
    Running,
    /// Anything else.
    Other,
}
