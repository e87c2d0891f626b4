//! Why bytes of a space were not taken.

/// Why bytes of a space were not taken.
#[derive(Clone, Copy, Debug, PartialEq, Eq)]
pub enum CopyFault {
    /// A byte that was to be read isn't mapped.
    BadAddress,
    /// No NUL was among the bytes of a text that were read.
    TooLong,
}
