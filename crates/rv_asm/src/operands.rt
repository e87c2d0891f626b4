//! The operands: registers, numbers, and an address with its offset.

ghost use Rattle.std.specs.Prelude.{◌≡◌, ◌<◌, ◌≤◌, pos, neg_ℤ, ◌≤ℤ◌, length, position, option_map, IfSome};
ghost use Rattle.unix_model.specs.Texts.{decimal_value};
ghost use Rattle.rv_asm.specs.Operands as model;

use kn_text::{NumberFault, number_of};

/// What numbers above 2^32 - 1 are read as, since none of them fits anywhere.
const LIMIT: u64 = 4_294_967_296;

/// The number of a register: what stands after `x`, or its name's in the calling convention (RISC-V psABI, Integer Register
/// Convention).
#[tactic(auto, unfolding(crate::specs::Operands::register))]
pub fn register(text: &[u8]) -> Option<u8>
    ensures number { result ≡ model.register text.now }
    ensures below { IfSome result (λ number. number < 32) }
{
    match text {
        [] => None,
        [b'x', digits @ ..] => register_numbered(digits),
        _ => register_named(text),
    }
}

/// The register with this number, in plain decimal.
fn register_numbered(digits: &[u8]) -> Option<u8>
    ensures number { result ≡ model.numbered (decimal_value digits.now) }
    ensures below { IfSome result (λ number. number < 32) }
{
    match number_of(digits, 31) {
        Ok(number) => Some(number as u8),
        Err(_) => None,
    }
}

/// The register with this name.
#[tactic(auto, unfolding(crate::specs::Operands::register_named))]
fn register_named(name: &[u8]) -> Option<u8>
    ensures number { result ≡ model.register_named name.now }
    ensures below { IfSome result (λ number. number < 32) }
{
    match name {
        b"zero" => Some(0),
        b"ra" => Some(1),
        b"sp" => Some(2),
        b"gp" => Some(3),
        b"tp" => Some(4),
        b"t0" => Some(5),
        b"t1" => Some(6),
        b"t2" => Some(7),
        b"s0" => Some(8),
        b"s1" => Some(9),
        b"a0" => Some(10),
        b"a1" => Some(11),
        b"a2" => Some(12),
        b"a3" => Some(13),
        b"a4" => Some(14),
        b"a5" => Some(15),
        b"a6" => Some(16),
        b"a7" => Some(17),
        b"s2" => Some(18),
        b"s3" => Some(19),
        b"s4" => Some(20),
        b"s5" => Some(21),
        b"s6" => Some(22),
        b"s7" => Some(23),
        b"s8" => Some(24),
        b"s9" => Some(25),
        b"s10" => Some(26),
        b"s11" => Some(27),
        b"t3" => Some(28),
        b"t4" => Some(29),
        b"t5" => Some(30),
        b"t6" => Some(31),
        _ => None,
    }
}

/// A number: decimal with an optional `-`, or `0x` and hexadecimal digits. What is above 2^32 - 1 is read as 2^32, and
/// what is below that negated as -2^32.
#[tactic(auto, unfolding(crate::specs::Operands::number))]
pub fn number(text: &[u8]) -> Option<i64>
    ensures value { result ≡ model.number text.now }
    ensures least { IfSome result (λ n. neg_ℤ (pos 4294967296) ≤ℤ n) }
    ensures most { IfSome result (λ n. n ≤ℤ pos 4294967296) }
{
    match text {
        [b'-', digits @ ..] => negative(digits),
        _ => match unsigned(text) {
            Some(value) => Some(value as i64),
            None => None,
        },
    }
}

/// The negative number whose decimal digits these are, or 0.
fn negative(digits: &[u8]) -> Option<i64>
    ensures value { result ≡ option_map (λ value. neg_ℤ (pos (model.cut value))) (decimal_value digits.now) }
    ensures least { IfSome result (λ n. neg_ℤ (pos 4294967296) ≤ℤ n) }
    ensures most { IfSome result (λ n. n ≤ℤ pos 4294967296) }
{
    match decimal(digits) {
        Some(value) => Some(negated(value)),
        None => None,
    }
}

/// A number below 0, or 0.
fn negated(value: u64) -> i64
    requires { value ≤ 4294967296 }
    ensures { result ≡ neg_ℤ (pos value) }
{
    -(value as i64)
}

/// A number without a sign.
fn unsigned(text: &[u8]) -> Option<u64>
    ensures value { result ≡ option_map (λ value. model.cut value) (model.unsigned text.now) }
    ensures most { IfSome result (λ value. value ≤ 4294967296) }
{
    match text {
        [b'0', b'x', digits @ ..] => hexadecimal(digits),
        _ => decimal(text),
    }
}

/// What decimal digits spell.
fn decimal(digits: &[u8]) -> Option<u64>
    ensures value { result ≡ option_map (λ value. model.cut value) (decimal_value digits.now) }
    ensures most { IfSome result (λ value. value ≤ 4294967296) }
{
    match number_of(digits, LIMIT - 1) {
        Ok(value) => Some(value),
        Err(NumberFault::TooLarge) => Some(LIMIT),
        Err(NumberFault::NotANumber) => None,
    }
}

/// What hexadecimal digits spell, of which there is at least one.
fn hexadecimal(digits: &[u8]) -> Option<u64>
    ensures value { result ≡ option_map (λ value. model.cut value) (model.hex_value digits.now) }
    ensures most { IfSome result (λ value. value ≤ 4294967296) }
{
    if digits.is_empty() {
        return None;
    }
    let mut number = 0;
    for byte in digits {
        match hex_digit(*byte) {
            Some(digit) => number = (16 * number + u64::from(digit)).min(LIMIT),
            None => return None,
        }
    }
    Some(number)
}

/// The value of a hexadecimal digit, of either case.
fn hex_digit(byte: u8) -> Option<u8>
    ensures value { result ≡ model.hex_digit byte }
    ensures below { IfSome result (λ digit. digit < 16) }
{
    match byte {
        b'0'..=b'9' => Some(byte - b'0'),
        b'a'..=b'f' => Some(byte - b'a' + 10),
        b'A'..=b'F' => Some(byte - b'A' + 10),
        _ => None,
    }
}

/// An address `imm(rs1)`: its offset, and the number of its register.
#[tactic(auto, unfolding(crate::specs::Operands::offset_and_base))]
pub fn offset_and_base(text: &[u8]) -> Option<(i64, u8)>
    ensures value { result ≡ model.offset_and_base text.now }
    ensures base { IfSome result (λ address. address.1 < 32) }
{
    let open = match first_open(text) {
        Some(open) => open,
        None => return None,
    };
    let offset = match number(&text[..open]) {
        Some(offset) => offset,
        None => return None,
    };
    let name = match before_close(&text[open + 1..]) {
        Some(name) => name,
        None => return None,
    };
    match register(name) {
        Some(base) => Some((offset, base)),
        None => None,
    }
}

/// Where the first `(` stands.
fn first_open(text: &[u8]) -> Option<usize>
    ensures place { result ≡ position model.is_open text.now }
    ensures inside { IfSome result (λ place. place < length text.now) }
{
    text.iter().position(|byte| *byte == b'(')
}

/// What stands before a `)` at the end.
#[tactic(auto, unfolding(crate::specs::Operands::before_last))]
fn before_close(text: &[u8]) -> Option<&[u8]>
    ensures { option_map (λ name. name.now) result ≡ model.before_last 41 text.now }
{
    match text {
        [name @ .., b')'] => Some(name),
        _ => None,
    }
}
