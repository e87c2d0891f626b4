//! How far the machine on a disk has got, and how a call of the disk fails.

/// A call of a disk failed: its count of faults rose.
#[derive(Clone, Copy, Debug, PartialEq, Eq)]
pub struct DiskFault;

/// How far the machine on a disk has got.
#[derive(Clone, Copy, Debug, PartialEq, Eq)]
pub struct Position {
    /// The generation of the machine.
    pub generation: u64,
    /// How many blocks were saved with it.
    pub entries: u32,
    /// How many of these are copied home.
    pub moved: u32,
    /// All of them are copied home, and synced.
    pub synced: bool,
}
