//! The entries of a bundle.

ghost use Rattle.std.specs.Prelude.{◌≡◌, ℕ, List};

use std::marker::Model;

/// Bytes in host memory.
#[derive(Drop)]
pub struct Bytes {
    held: Vec<u8>,
}

impl Model for Bytes {
    ghost Value = { List ℕ };

    ghost view = { λ bytes. bytes.held.items };
}

impl Bytes {
    /// These bytes.
    pub(crate) fn new(held: Vec<u8>) -> Bytes
        ensures { result ≡ held.items }
    {
        Bytes { held }
    }

    /// The bytes.
    pub fn as_slice(&self) -> &[u8]
        ensures { result.now ≡ self.now }
    {
        self.held.as_slice()
    }

    /// The bytes, given away.
    pub fn into_vec(self) -> Vec<u8>
        ensures { result.items ≡ self }
    {
        self.held
    }
}

/// An entry of a bundle, and the number of its line.
#[derive(Drop)]
pub enum Entry {
    /// A directory.
    Dir {
        path: Bytes,
        line: u32,
    },
    /// A file with these bytes.
    File {
        path: Bytes,
        bytes: Bytes,
        line: u32,
    },
}
