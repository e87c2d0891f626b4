//! Why a source is refused.

/// Why a line is refused.
#[derive(Clone, Copy, Debug, PartialEq, Eq)]
pub enum AsmKind {
    /// The line is no statement of the language, or the source has no instruction.
    Syntax,
    /// No line has this label.
    UnknownLabel,
    /// An earlier line has this label.
    DoubleLabel,
    /// A number or a distance doesn't fit, or a part has more than 1,048,576 bytes.
    OutOfRange,
    /// The line has more than 1,024 bytes, or there are more than 100,000 lines.
    TooLong,
}

/// Why a source is not assembled.
#[derive(Clone, Copy, Debug, PartialEq, Eq)]
pub enum AsmFault {
    /// A line is refused. The first line is 1.
    At { kind: AsmKind, line: u32 },
    /// Host memory ran out.
    NoMemory,
}
