//! System calls on their way.

ghost use Rattle.std.specs.Prelude.{◌≤◌, length};
ghost use Rattle.flat_state.specs.SentCount.{HasSmallCount};

use unix_model::Call;

/// A system call on its way to the server that answers it.
#[derive(Drop)]
pub struct SentCall {
    pub call: Call,
    /// `a0` to `a3`, but a count that was cut stands here cut.
    pub arguments: [u32; 4],
    /// The bytes that it brings, at most 4,096.
    pub bytes: Vec<u8>,
    ghost few: { length bytes.items ≤ 4096 },
    ghost small_count: { HasSmallCount call arguments },
}
