//! Laws over the definitions, each the contract of a function without a body.

ghost use Rattle.std.specs.Prelude.{◌≡◌, ◌≢◌, ℕ, ◌+◌, List, [], ◌∷◌, ◌++◌};
ghost use Rattle.unix_model.specs.Calls.{Calls};
ghost use Rattle.unix_model.specs.Machine.{Machine, StartsOnce, Going, followed_by, run};
ghost use Rattle.unix_model.specs.Schedule.{Schedule, unix_run};
ghost use Rattle.unix_model.specs.State.{Unix};
ghost use Rattle.unix_model.specs.Texts.{IsLine, lines_of};

/// Runs split, of every machine that takes note of a state once: where a run of `n` turns makes them all, a run of `n + m`
/// turns is that run and then one of `m` turns from the state, the schedule and the input that it leaves.
pub fn machine_splitting_law<S, P>()
    ensures { (machine : Machine S P) (n m : ℕ) (state : S) (schedule : P) (input : List ℕ)
        → StartsOnce machine
        → (run machine n state schedule input).stop ≡ Going
        → run machine (n + m) state schedule input
        ≡ followed_by (run machine n state schedule input)
        (run machine m (run machine n state schedule input).state (run machine n state schedule input).schedule (run machine n state schedule input).left) }
{}

/// Runs of the Unix machine split: where a run of `n` turns makes them all, a run of `n + m` turns is that run and then one of `m` turns
/// from the state, the schedule and the input that it leaves.
pub fn splitting_law()
    ensures { (calls : Calls) (n m : ℕ) (unix : Unix) (schedule : Schedule) (input : List ℕ)
        → (unix_run calls n unix schedule input).stop ≡ Going
        → unix_run calls (n + m) unix schedule input
        ≡ followed_by (unix_run calls n unix schedule input)
        (unix_run calls m (unix_run calls n unix schedule input).state (unix_run calls n unix schedule input).schedule (unix_run calls n unix schedule input).left) }
{}

/// The lines of a text, by what stands at its front: none where it has no bytes; a line with its line feed is the first,
/// before those of the bytes after it; and a line alone, of at least one byte, is the only one.
pub fn lines_law()
    ensures nothing { lines_of [] ≡ [] }
    ensures ended { (line bytes : List ℕ) → IsLine line → lines_of (line ++ 10 ∷ bytes) ≡ line ∷ lines_of bytes }
    ensures last { (line : List ℕ) → IsLine line → line ≢ [] → lines_of line ≡ line ∷ [] }
{}
