//! Where bytes go.
ghost use Rattle.std.specs.Prelude.{◌≡◌, ℕ, List, [], ◌++◌, Option, Some, OnOk, OnErr, ◌≤◌};
ghost use Rattle.kn_io.specs.Faults.{Rose};
ghost use Rattle.kn_io.specs.Sink.{GrewByPrefix, prefix-joined, prefix-of_nothing, prefix-longer, prefix-whole};

use crate::failures::Failed;

/// A place that bytes go to, in pieces.
pub trait Sink {
    // The bytes put so far, where they are told.
    ghost told: { Self → Option (List ℕ) };

    // A sink before got these bytes, and is now the sink after.
    ghost grew: { Self → List ℕ → Self → Type 0 };

    // How many of its calls failed, up to 2^64 - 1.
    ghost faults: { Self → ℕ };

    /// Puts the bytes, all of them and in order.
    ///
    /// # Errors
    ///
    /// `Failed` only where the count of faults rose. The sink then got a front of the bytes. Where all were put the count is
    /// as before.
    fn put(&mut self, bytes: &[u8]) -> Result<(), Failed>
        ensures grew { OnOk result (grew self.old bytes.now self.new) }
        ensures part { OnErr result (GrewByPrefix grew self.old bytes.now self.new) }
        ensures same { OnOk result (faults self.new ≡ faults self.old) }
        ensures counted { faults self.old ≤ faults self.new }
        ensures failed { OnErr result (Rose (faults self.old) (faults self.new)) };

    // Getting nothing changes nothing.
    ghost grew_nothing: { (s : Self) → grew s [] s };

    // Getting one piece and then another is getting the two joined.
    ghost grew_joined: { (a b c : Self) (x y : List ℕ) → grew a x b → grew b y c → grew a (x ++ y) c };

    // What is told is what was put, in order.
    ghost told_grew: { (a b : Self) (x t : List ℕ) → told a ≡ Some t → grew a x b → told b ≡ Some (t ++ x) };

    // Getting a piece and then a front of another is getting a front of the two joined.
    ghost part_joined: { (a b c : Self) (x y : List ℕ) → grew a x b → GrewByPrefix grew b y c → GrewByPrefix grew a (x ++ y) c } = { prefix-joined grew grew_joined };

    // Getting nothing is getting a front of anything.
    ghost part_nothing: { (s : Self) (x : List ℕ) → GrewByPrefix grew s x s } = { prefix-of_nothing grew grew_nothing };

    // Getting a front of a piece is getting a front of that piece and more.
    ghost part_longer: { (a b : Self) (x y : List ℕ) → GrewByPrefix grew a x b → GrewByPrefix grew a (x ++ y) b } = { prefix-longer grew };

    // Getting a piece is getting a front of it.
    ghost part_whole: { (a b : Self) (x : List ℕ) → grew a x b → GrewByPrefix grew a x b } = { prefix-whole grew };
}
