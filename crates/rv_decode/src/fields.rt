//! The fields and immediates of a word (RISC-V Unprivileged ISA, 2.2 and 2.3).

ghost use Rattle.std.specs.Prelude.{◌≡◌, ℕ, ◌+◌, ◌-◌, ◌<◌, ◌≤◌, ◌^◌};
ghost use Rattle.unix_model.specs.Instructions.{opcode as opcode_of, rd_of, funct3 as funct3_of, rs1_of, rs2_of, funct7 as funct7_of, immediate_I, immediate_S, immediate_B, immediate_U, immediate_J, amount as amount_of};
ghost use Rattle.unix_model.specs.Numbers.{signed};
ghost use Rattle.rv_decode.specs.Fits.{IsSigned, IsEven, IsUpper, IsAmount};

/// The signed number that twelve bits spell.
fn signed_12(bits: u32) -> i32
    requires { bits < 4096 }
    ensures value { result ≡ signed 12 bits }
    ensures range { IsSigned 12 result }
{
    if bits < 2048 {
        bits as i32
    } else {
        bits as i32 - 4096
    }
}

/// The signed number that thirteen bits spell.
fn signed_13(bits: u32) -> i32
    requires { bits < 8192 }
    ensures value { result ≡ signed 13 bits }
    ensures range { IsSigned 13 result }
{
    if bits < 4096 {
        bits as i32
    } else {
        bits as i32 - 8192
    }
}

/// The signed number that twenty-one bits spell.
fn signed_21(bits: u32) -> i32
    requires { bits < 2097152 }
    ensures value { result ≡ signed 21 bits }
    ensures range { IsSigned 21 result }
{
    if bits < 1048576 {
        bits as i32
    } else {
        bits as i32 - 2097152
    }
}

/// Bits 6 to 0.
pub fn opcode(word: u32) -> u32
    ensures { result ≡ opcode_of word }
{
    word % 128
}

/// Bits 11 to 7.
pub fn rd(word: u32) -> u8
    ensures value { result ≡ rd_of word }
    ensures range { result < 32 }
{
    (word / 128 % 32) as u8
}

/// Bits 14 to 12.
pub fn funct3(word: u32) -> u32
    ensures { result ≡ funct3_of word }
{
    word / 4096 % 8
}

/// Bits 19 to 15.
pub fn rs1(word: u32) -> u8
    ensures value { result ≡ rs1_of word }
    ensures range { result < 32 }
{
    (word / 32768 % 32) as u8
}

/// Bits 24 to 20.
pub fn rs2(word: u32) -> u8
    ensures value { result ≡ rs2_of word }
    ensures range { result < 32 }
{
    (word / 1048576 % 32) as u8
}

/// Bits 31 to 25.
pub fn funct7(word: u32) -> u32
    ensures { result ≡ funct7_of word }
{
    word / 33554432 % 128
}

/// The immediate of format I.
pub fn immediate_i(word: u32) -> i32
    ensures value { result ≡ immediate_I word }
    ensures range { IsSigned 12 result }
{
    signed_12(word / 1048576 % 4096)
}

/// The immediate of format S.
pub fn immediate_s(word: u32) -> i32
    ensures value { result ≡ immediate_S word }
    ensures range { IsSigned 12 result }
{
    signed_12(word / 33554432 % 128 * 32 + word / 128 % 32)
}

/// The immediate of format B.
pub fn immediate_b(word: u32) -> i32
    ensures value { result ≡ immediate_B word }
    ensures range { IsSigned 13 result }
    ensures even { IsEven result }
{
    signed_13(
        word / 2147483648 % 2 * 4096
            + word / 128 % 2 * 2048
            + word / 33554432 % 64 * 32
            + word / 256 % 16 * 2,
    )
}

/// The immediate of format U.
pub fn immediate_u(word: u32) -> u32
    ensures value { result ≡ immediate_U word }
    ensures range { IsUpper result }
{
    word / 4096 % 1048576 * 4096
}

/// The immediate of format J.
pub fn immediate_j(word: u32) -> i32
    ensures value { result ≡ immediate_J word }
    ensures range { IsSigned 21 result }
    ensures even { IsEven result }
{
    signed_21(
        word / 2147483648 % 2 * 1048576
            + word / 4096 % 256 * 4096
            + word / 1048576 % 2 * 2048
            + word / 2097152 % 1024 * 2,
    )
}

/// The amount of a shift by an immediate.
pub fn amount(word: u32) -> i32
    ensures value { result ≡ amount_of word }
    ensures range { IsAmount result }
{
    (word / 1048576 % 32) as i32
}
