//! Why work on the outside ended.

/// A call of a source or a sink that failed. Its count of faults rose.
#[derive(Clone, Copy, Debug, PartialEq, Eq)]
pub struct Failed;

/// Host memory ran out.
#[derive(Clone, Copy, Debug, PartialEq, Eq)]
pub struct NoMemory;

/// A read failed: the count of a source rose.
#[derive(Clone, Copy, Debug, PartialEq, Eq)]
pub struct ReadFault;

/// A write failed: the count of a sink rose.
#[derive(Clone, Copy, Debug, PartialEq, Eq)]
pub struct WriteFault;
