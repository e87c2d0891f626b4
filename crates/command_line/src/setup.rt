//! What commands are given.

ghost use Rattle.std.specs.Prelude.{◌≤◌};

/// Who says whose turns they are.
#[derive(Clone, Copy, Debug, PartialEq, Eq)]
pub enum Plan {
    /// Nobody: they go round.
    Round,
    /// The plan.
    Given,
}

/// The machine and the run of `once`.
#[derive(Clone, Copy, Debug, PartialEq, Eq)]
pub struct Setup {
    /// The pages that the machine may promise, 64 to 16,384.
    pub pages: u32,
    /// The turns that a slot is given in a row, 1 to 10,000.
    pub quantum: u32,
    /// The most turns that are made.
    pub turns: u64,
    pub plan: Plan,
    ghost pages_fit: { (64 ≤ pages) × (pages ≤ 16384) },
    ghost quantum_fits: { (1 ≤ quantum) × (quantum ≤ 10000) },
}

/// The load of `work`.
#[derive(Clone, Copy, Debug, PartialEq, Eq)]
pub struct Load {
    /// The number from which those of the load's file follow.
    pub seed: u32,
    /// The lines of that file, 1 to 100,000.
    pub lines: u32,
    ghost lines_fit: { (1 ≤ lines) × (lines ≤ 100000) },
}
