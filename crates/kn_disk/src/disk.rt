//! What a disk is.
ghost use Rattle.std.specs.Prelude.{◌≡◌, ◌≤◌, ◌+◌, ℕ, List, length, OnOk, OnErr, IfOk};
ghost use Rattle.kn_io.specs.Faults.{Rose};
ghost use Rattle.kn_base.specs.Rows.{part_at, overwritten};
ghost use Rattle.kn_disk.specs.Images.{Scarred, Resized, After, resized, Only, Elapses};

use kn_io::Failed;

/// A disk: bytes that can be read and written, and that a crash may spoil until they are synced.
///
/// Between two syncs a crash may leave any bytes in each range that was written and behind the old
/// end, and the old length or the new one. All other bytes stay. After a sync that succeeds it
/// leaves what a read gives.
pub trait Disk {
    // Disks of this type tell what they hold. Each clause on contents has this as its premise.
    ghost tells: { Type 0 };

    // What a read gives, where it is told.
    ghost contents: { Self → List ℕ };

    // What a crash now may leave.
    ghost image: { Self → List ℕ → Type 0 };

    // The moment, as a number that doesn't fall.
    ghost moment: { Self → ℕ };

    // What a crash at some moment from that one on might have left.
    ghost since: { Self → ℕ → List ℕ → Type 0 };

    // How many of its calls failed, up to 2^64 - 1.
    ghost faults: { Self → ℕ };

    /// How many bytes there are.
    ///
    /// # Errors
    ///
    /// `Failed` only where the count of faults rose. All is then as before.
    fn length(&mut self) -> Result<u64, Failed>
        ensures value { tells → IfOk result (λ bytes. bytes ≡ length (contents self.old)) }
        ensures contents { tells → contents self.new ≡ contents self.old }
        ensures images { (c : List ℕ) → image self.new c → image self.old c }
        ensures kept { (c : List ℕ) → image self.old c → image self.new c }
        ensures time { Elapses moment image since self.old self.new }
        ensures same { OnOk result (faults self.new ≡ faults self.old) }
        ensures counted { faults self.old ≤ faults self.new }
        ensures failed { OnErr result (Rose (faults self.old) (faults self.new)) };

    /// Makes the disk so many bytes long. Bytes that are added read as zero.
    ///
    /// # Errors
    ///
    /// `Failed` only where the count of faults rose. A read then gives one of the images.
    fn set_length(&mut self, length: u64) -> Result<(), Failed>
        ensures resized { tells → OnOk result (contents self.new ≡ resized length (contents self.old)) }
        ensures images { (c : List ℕ) → image self.new c → After (Resized length) (image self.old) c }
        ensures time { Elapses moment image since self.old self.new }
        ensures same { OnOk result (faults self.new ≡ faults self.old) }
        ensures counted { faults self.old ≤ faults self.new }
        ensures failed { OnErr result (Rose (faults self.old) (faults self.new)) };

    /// Reads as many bytes as `into` has, from the byte `at` on.
    ///
    /// # Errors
    ///
    /// `Failed` only where the count of faults rose. The disk is then as before.
    fn read_at(&mut self, at: u64, into: &mut [u8]) -> Result<(), Failed>
        requires { tells → at + length into.old ≤ length (contents self.old) }
        ensures read { tells → OnOk result (into.new ≡ part_at (contents self.old) at (length into.old)) }
        ensures contents { tells → contents self.new ≡ contents self.old }
        ensures images { (c : List ℕ) → image self.new c → image self.old c }
        ensures kept { (c : List ℕ) → image self.old c → image self.new c }
        ensures time { Elapses moment image since self.old self.new }
        ensures same { OnOk result (faults self.new ≡ faults self.old) }
        ensures counted { faults self.old ≤ faults self.new }
        ensures failed { OnErr result (Rose (faults self.old) (faults self.new)) };

    /// Writes the bytes over what stands from the byte `at` on.
    ///
    /// # Errors
    ///
    /// `Failed` only where the count of faults rose. A read then gives one of the images.
    fn write_at(&mut self, at: u64, from: &[u8]) -> Result<(), Failed>
        requires { tells → at + length from.now ≤ length (contents self.old) }
        ensures written { tells → OnOk result (contents self.new ≡ overwritten (contents self.old) at from.now) }
        ensures images { (c : List ℕ) → image self.new c → After (Scarred at (length from.now)) (image self.old) c }
        ensures time { Elapses moment image since self.old self.new }
        ensures same { OnOk result (faults self.new ≡ faults self.old) }
        ensures counted { faults self.old ≤ faults self.new }
        ensures failed { OnErr result (Rose (faults self.old) (faults self.new)) };

    /// Brings all that was written to where a crash leaves it.
    ///
    /// # Errors
    ///
    /// `Failed` only where the count of faults rose. Contents and images are then as before.
    fn sync(&mut self) -> Result<(), Failed>
        ensures durable { OnOk result (Only (contents self.new) (image self.new)) }
        ensures contents { tells → contents self.new ≡ contents self.old }
        ensures images { (c : List ℕ) → image self.new c → image self.old c }
        ensures kept { OnErr result ((c : List ℕ) → image self.old c → image self.new c) }
        ensures time { Elapses moment image since self.old self.new }
        ensures same { OnOk result (faults self.new ≡ faults self.old) }
        ensures counted { faults self.old ≤ faults self.new }
        ensures failed { OnErr result (Rose (faults self.old) (faults self.new)) };

    // A crash may leave what a read gives.
    ghost contents_image: { (d : Self) → tells → image d (contents d) };

    // This moment is one of those since an earlier one.
    ghost counts_now: { (d : Self) (t : ℕ) (c : List ℕ) → t ≤ moment d → image d c → since d t c };

    // Since this moment there is no other.
    ghost only_now: { (d : Self) (c : List ℕ) → since d (moment d) c → image d c };
}
