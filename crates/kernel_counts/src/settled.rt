//! Laws of counts that are exact, and of what cancels.

ghost use Rattle.kernel_counts.specs.Counted.{CountsAreExact, CountsEven, CountsSettle, RaisedAndLowered};

/// Between turns no count is off.
pub fn counts_are_exact()
    ensures { CountsAreExact }
{}

/// Where no count is off, the counts are settled.
pub fn counts_settle()
    ensures { CountsSettle }
{}

/// Counts that are off by as much are off alike.
pub fn counts_even()
    ensures { CountsEven }
{}

/// A number that is to be raised and to be lowered cancels.
pub fn raised_and_lowered()
    ensures { RaisedAndLowered }
{}
