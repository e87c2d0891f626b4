//! Why a bundle is refused.

/// Why a line of a bundle is refused.
#[derive(Clone, Copy, Debug, PartialEq, Eq)]
pub enum BundleKind {
    /// The line is none of those that may stand there, or the bundle ends where a line has to be.
    Syntax,
    /// The path isn't a slash and a name, and any further slashes and names.
    BadPath,
    /// An earlier entry has the path.
    Twice,
    /// The path's directory is no earlier line `dir`.
    NoParent,
    /// The line has more than 1,024 bytes, the path more than 255, a name of it more than 27; or there are more than 4,096
    /// entries.
    TooLong,
    /// The assembler refuses the line, or the source that the line names.
    BadAsm,
    /// The line isn't made of pairs of hexadecimal digits.
    BadHex,
    /// At the line `end` no file `/init` was given.
    NoInit,
}

/// Why there is no next entry.
#[derive(Clone, Copy, Debug, PartialEq, Eq)]
pub enum BundleFault {
    /// A line is refused. The first line is 1.
    At { kind: BundleKind, line: u32 },
    /// A call of the source failed.
    ReadFault,
    /// Host memory ran out.
    NoMemory,
}

/// Why a path wasn't added.
#[derive(Clone, Copy)]
pub enum NotAdded {
    /// No entry may have it, for this reason.
    Refused(BundleKind),
    /// Host memory ran out.
    NoMemory,
}
