//! Bundles, booted on the plain machine.
#![tactic(auto)]

mod booting;
mod fault;
mod laws;

pub use booting::boot;
pub use fault::BootFault;
pub use laws::one_outcome_law;
