//! A change of a disk in memory.

/// What a call did to a disk. The bytes that were written stand elsewhere, all in one row.
#[derive(Clone, Copy)]
pub(crate) enum Change {
    /// So many bytes of the row, from a place on, were written at a place of the disk.
    Written { at: u64, from: usize, count: usize },
    /// The disk was made so long.
    Cut { length: u64 },
    /// The disk was synced.
    Synced,
}
