//! What stands where a crash may leave any bytes.

/// Which image of a disk in memory is made.
#[derive(Clone, Copy, Debug, PartialEq, Eq)]
pub enum Fill {
    /// What was there at the last sync: nothing that was done since has reached the disk.
    Old,
    /// What a read gives: all that was done has reached the disk.
    New,
    /// What was there at the last sync, with this byte in each range that was written since.
    Byte(u8),
}
