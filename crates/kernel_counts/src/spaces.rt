//! Laws of the counts along with calls on spaces, which leave them.

ghost use Rattle.kernel_counts.specs.Counted.{CountsWithLoose, CountsWithMemory, CountsWithSpace, CountsWithSpaceDropped};

/// The memory of a process is another one.
pub fn counts_with_memory()
    ensures { CountsWithMemory }
{}

/// A space or tree is another one that nobody has.
pub fn counts_with_loose()
    ensures { CountsWithLoose }
{}

/// A space is added.
pub fn counts_with_space()
    ensures { CountsWithSpace }
{}

/// A space or tree is released that nobody has.
pub fn counts_with_space_dropped()
    ensures { CountsWithSpaceDropped }
{}
