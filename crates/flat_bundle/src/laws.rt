//! A law of the boot of bundles.

ghost use Rattle.flat_bundle.specs.Booting.{OneOutcome};

use rv_asm::one_file_law;

/// A bundle boots in one way.
pub fn one_outcome_law()
    ensures { OneOutcome }
{
    one_file_law();
}
