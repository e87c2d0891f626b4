//! What came of a take or a put.

/// What came of a take or a put.
#[derive(Clone, Copy, Debug, PartialEq, Eq)]
pub enum Piped {
    /// So many bytes were moved.
    Moved(u32),
    /// The pipe is empty, and nobody can write to it.
    End,
    /// Bytes that may come, or room that may, are waited for.
    Wait,
}
