//! Which numbers fit.

ghost use Rattle.std.specs.Prelude.{◌≡◌, ◌*◌, ◌≤◌, pos, ◌≤ℤ◌, int_le, nat_abs, IfSome};
ghost use Rattle.rv_decode.specs.Fits.{IsAmount, IsOperand, IsSigned, IsUpper};
ghost use Rattle.rv_asm.specs.Statements as model;

use unix_model::ImmOp;

/// A number from -2^11 to 2^11 - 1.
pub fn signed_12(n: i64) -> Option<i32>
    ensures value { result ≡ model.fitting (model.is_signed_12 n) n }
    ensures fits { IfSome result (λ imm. IsSigned 12 imm) }
{
    if -2048 <= n && n < 2048 {
        Some(n as i32)
    } else {
        None
    }
}

/// The amount of a shift, from 0 to 31.
fn amount(n: i64) -> Option<i32>
    ensures value { result ≡ model.fitting (model.is_amount n) n }
    ensures fits { IfSome result (λ imm. IsAmount imm) }
{
    if 0 <= n && n < 32 {
        Some(n as i32)
    } else {
        None
    }
}

/// The immediate of an operation.
pub fn immediate(op: ImmOp, n: i64) -> Option<i32>
    ensures value { result ≡ model.fitting (model.is_immediate op n) n }
    ensures fits { IfSome result (λ imm. IsOperand op imm) }
{
    match op {
        ImmOp::Slli | ImmOp::Srli | ImmOp::Srai => amount(n),
        ImmOp::Addi | ImmOp::Slti | ImmOp::Sltiu | ImmOp::Xori | ImmOp::Ori | ImmOp::Andi =>
            signed_12(n),
    }
}

/// The upper twenty bits of a word: a number below 2^20, times 4096.
pub fn upper(n: i64) -> Option<u32>
    ensures value { result ≡ model.fitting (model.is_upper n) (4096 * nat_abs n) }
    ensures fits { IfSome result (λ imm. IsUpper imm) }
{
    if 0 <= n && n < 1_048_576 {
        Some(4096 * n as u32)
    } else {
        None
    }
}

/// What four bytes hold, signed or unsigned: a number from -2^31 to 2^32 - 1, modulo 2^32.
pub fn word(n: i64) -> Option<u32>
    ensures { result ≡ model.fitting (model.is_word n) (model.wrapped 4294967296 n) }
{
    if n < -2_147_483_648 || 4_294_967_296 <= n {
        None
    } else if n < 0 {
        Some((n + 4_294_967_296) as u32)
    } else {
        Some(n as u32)
    }
}

/// What one byte holds, signed or unsigned: a number from -2^7 to 2^8 - 1, modulo 2^8.
pub fn byte(n: i64) -> Option<u8>
    ensures { result ≡ model.fitting (model.is_byte n) (model.wrapped 256 n) }
{
    if n < -128 || 256 <= n {
        None
    } else if n < 0 {
        Some((n + 256) as u8)
    } else {
        Some(n as u8)
    }
}

/// A number of zeros.
pub fn count(n: i64) -> Option<u64>
    requires { n ≤ℤ pos 4294967296 }
    ensures value { result ≡ model.fitting (int_le (pos 0) n) (nat_abs n) }
    ensures most { IfSome result (λ count. count ≤ 4294967296) }
{
    if 0 <= n { Some(n as u64) } else { None }
}

/// An exponent of 2, at most 12.
pub fn exponent(n: i64) -> Option<u32>
    ensures value { result ≡ model.fitting (model.is_exponent n) (nat_abs n) }
    ensures most { IfSome result (λ n. n ≤ 12) }
{
    if 0 <= n && n <= 12 {
        Some(n as u32)
    } else {
        None
    }
}
