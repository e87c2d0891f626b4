//! The schedule where none is given.

ghost use Rattle.std.specs.Prelude.{◌≡◌, ◌<◌, ◌*◌, ◌/◌};

/// The slot whose turn it is at a position of a round, where each of the 64 slots gets `quantum` turns in a row.
pub fn round_slot(position: u32, quantum: u32) -> u8
    requires inside { position < 64 * quantum }
    ensures { result ≡ position / quantum }
{
    (position / quantum) as u8
}
