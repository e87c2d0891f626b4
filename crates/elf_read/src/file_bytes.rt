//! A file as its bytes.

ghost use Rattle.std.specs.Prelude.{◌≡◌, ◌+◌, ◌<◌, ◌≤◌, ℕ, List, length, take, drop, All};

use std::marker::Model;

/// A file whose bytes can be read at any place: at most 4,194,304 bytes, each below 256.
pub trait FileBytes {
    ghost bytes: { Self → List ℕ };

    /// How many bytes the file has.
    fn length(&self) -> u32
        ensures length { result ≡ length (bytes self.now) }
        ensures few { length (bytes self.now) ≤ 4194304 }
        ensures in_range { All (λ byte. byte < 256) (bytes self.now) };

    /// Fills `into` with the file's bytes from the place `at` on, all of which the file has.
    fn read(&self, at: u32, into: &mut [u8])
        requires { at + length into.old ≤ length (bytes self.now) }
        ensures { into.new ≡ take (length into.old) (drop at (bytes self.now)) };
}

/// A slice of at most 4,194,304 bytes as a file.
#[derive(Drop)]
pub struct SliceBytes<'a>(pub &'a [u8]);

impl<'a> Model for SliceBytes<'a> {
    ghost Value = { List ℕ };

    ghost view = { λ file. file.0.now };

    ghost invariant = { λ file. (length file.0.now ≤ 4194304) × All (λ byte. byte < 256) file.0.now };
}

impl FileBytes for SliceBytes<'_> {
    ghost bytes = { λ file. file };

    fn length(&self) -> u32 {
        self.0.len() as u32
    }

    fn read(&self, at: u32, into: &mut [u8]) {
        let at = at as usize;
        into.copy_from_slice(&self.0[at..at + into.len()]);
    }
}
