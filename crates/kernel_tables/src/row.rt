//! Rows of the tables of files.

ghost use Rattle.std.specs.Prelude.{◌≡◌, ℕ, ◌+◌, ◌≤◌, ◌++◌, length};
ghost use Rattle.std.specs.Int.{to_le_bytes, w32};
ghost use Rattle.kernel_tables.specs.Files.{row_word};

/// A row of a table of files.
#[derive(Clone, Copy, Debug, PartialEq, Eq)]
pub enum Row<X> {
    /// A row of zeros, which nothing uses.
    Free,
    /// A row in use.
    Used(X),
    /// Bytes that are no row's spelling.
    Unspelled,
}

/// The word of a row that begins at byte `at`.
pub fn word_in(bytes: &[u8], at: usize) -> u32
    requires { at + 4 ≤ length bytes.now }
    ensures { result ≡ row_word bytes.now at }
{
    let mut word = [0; 4];
    word.copy_from_slice(&bytes[at..at + 4]);
    u32::from_le_bytes(word)
}

// The bytes of two words.
fn two_words(first: u32, second: u32) -> [u8; 8]
    ensures { result ≡ to_le_bytes w32 first ++ to_le_bytes w32 second }
{
    let [a, b, c, d] = first.to_le_bytes();
    let [e, f, g, h] = second.to_le_bytes();
    [a, b, c, d, e, f, g, h]
}

/// The sixteen bytes of four words.
pub fn four_words(a: u32, b: u32, c: u32, d: u32) -> [u8; 16]
    ensures { result ≡ (to_le_bytes w32 a ++ to_le_bytes w32 b) ++ (to_le_bytes w32 c ++ to_le_bytes w32 d) }
{
    let mut bytes = [0; 16];
    bytes[..8].copy_from_slice(&two_words(a, b));
    bytes[8..].copy_from_slice(&two_words(c, d));
    bytes
}

/// Sixteen bytes, and sixteen more behind them.
pub fn joined(first: [u8; 16], second: [u8; 16]) -> [u8; 32]
    ensures { result ≡ first ++ second }
{
    let mut bytes = [0; 32];
    bytes[16..].copy_from_slice(&second);
    bytes[..16].copy_from_slice(&first);
    bytes
}
