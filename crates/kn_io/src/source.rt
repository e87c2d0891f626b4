//! Where bytes come from.
ghost use Rattle.std.specs.Prelude.{◌≡◌, ℕ, List, Option, OnOk, OnErr, ◌≤◌};
ghost use Rattle.kn_io.specs.Faults.{Rose};
ghost use Rattle.kn_io.specs.Source.{Gives};

use crate::failures::Failed;

/// A place that bytes come from, one by one.
pub trait Source {
    // The bytes still to come, where they are told.
    ghost left: { Self → Option (List ℕ) };

    // How many of its calls failed, up to 2^64 - 1.
    ghost faults: { Self → ℕ };

    /// The next byte, which is then taken, or `None` where none is left.
    ///
    /// # Errors
    ///
    /// `Failed` only where the count of faults rose. What is left is then as before. At every other answer the count is as
    /// before.
    fn next(&mut self) -> Result<Option<u8>, Failed>
        ensures gives { Gives (left self.old) result (left self.new) }
        ensures same { OnOk result (faults self.new ≡ faults self.old) }
        ensures counted { faults self.old ≤ faults self.new }
        ensures failed { OnErr result (Rose (faults self.old) (faults self.new)) };
}
