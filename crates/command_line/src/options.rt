//! The options of commands that were given.

ghost use Rattle.std.specs.Prelude.{◌≤◌, IfSome};
ghost use Rattle.std.proofs.Props.{props};

use crate::setup::Plan;

/// Those of `once`, each with its value, where it was given.
#[derive(Clone, Copy, Debug, PartialEq, Eq)]
pub struct Options {
    pub pages: Option<u32>,
    pub quantum: Option<u32>,
    pub turns: Option<u64>,
    pub plan: Option<Plan>,
    ghost pages_fit: { IfSome pages (λ pages. (64 ≤ pages) × (pages ≤ 16384)) } by { Prim.hlevel props },
    ghost quantum_fits: { IfSome quantum (λ quantum. (1 ≤ quantum) × (quantum ≤ 10000)) } by { Prim.hlevel props },
}

/// Those of `work`, likewise.
#[derive(Clone, Copy, Debug, PartialEq, Eq)]
pub struct LoadOptions {
    pub seed: Option<u32>,
    pub lines: Option<u32>,
    ghost lines_fit: { IfSome lines (λ lines. (1 ≤ lines) × (lines ≤ 100000)) } by { Prim.hlevel props },
}
