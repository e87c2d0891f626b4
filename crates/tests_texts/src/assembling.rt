//! What the tests of the assembler share. Its functions have no clauses, so that each test is proved quickly.
//!
//! A table is one text. A row of it is a line of a source, ` => ` and what the file is to hold; or a line alone that is to be
//! refused. In a row, `|` stands for a line feed.

use kn_text::split_line;
use rv_asm::{AsmFault, AsmKind, assemble};
use std::alloc::{AllocError, Global};
use std::test::Fail;

// What is expected of the sources of a table.
#[derive(Clone, Copy)]
pub enum Form {
    // All of the text and the data: words in eight hexadecimal digits, and bytes in two.
    Parts,
    // The data behind a text of one `nop`: bytes in two hexadecimal digits.
    Bytes,
    // The data behind a text of one `nop`, as they are.
    Text,
}

// The file of a source.
pub fn file_of(alloc: Global, source: &[u8]) -> Result<Vec<u8>, AsmFault> {
    assemble(alloc, source)
}

// The refusal of a source.
pub fn refusal(alloc: Global, source: &[u8]) -> Option<AsmFault> {
    file_of(alloc, source).err()
}

// What stands in a file from a place on.
fn from(file: &[u8], place: usize) -> &[u8] {
    if place <= file.len() {
        &file[place..]
    } else {
        &[]
    }
}

// The word at a place of a file.
fn word_at(file: &[u8], place: usize) -> Option<u32> {
    match from(file, place) {
        [a, b, c, d, ..] => Some(u32::from_le_bytes([*a, *b, *c, *d])),
        _ => None,
    }
}

// The first row of a table, and the others.
pub fn first_row(rows: &[u8]) -> (&[u8], &[u8]) {
    split_line(rows)
}

// The two sides of a row.
pub fn sides(row: &[u8]) -> Option<(&[u8], &[u8])> {
    for at in 0..row.len() {
        if let [b' ', b'=', b'>', b' ', ..] = from(row, at) {
            return Some((&row[..at], from(row, at + 4)));
        }
    }
    None
}

// Puts what stands from a place on behind it, until it is there so many times.
fn repeat(alloc: Global, bytes: &mut Vec<u8>, place: usize, count: u32) -> Result<(), AllocError> {
    let text = Vec::from_slice(alloc, from(bytes.as_slice(), place))?;
    for _ in 1..count {
        bytes.extend_from_slice(text.as_slice())?;
    }
    Ok(())
}

// A decimal number with another digit.
fn with_digit(number: u32, digit: u8) -> u32 {
    number
        .wrapping_mul(10)
        .wrapping_add(u32::from(digit.wrapping_sub(b'0')))
}

// A text, and a side of a row behind it, in which `{3*ab}` stands for `ababab`.
pub fn joined(alloc: Global, before: &[u8], side: &[u8]) -> Result<Vec<u8>, AllocError> {
    let mut bytes = Vec::from_slice(alloc, before)?;
    let mut place = 0usize;
    let mut count = 0u32;
    let mut is_count = false;
    for byte in side {
        match *byte {
            b'{' => {
                count = 0;
                is_count = true;
            }
            b'*' if is_count => {
                place = bytes.len();
                is_count = false;
            }
            digit if is_count => count = with_digit(count, digit),
            b'}' => repeat(alloc, &mut bytes, place, count)?,
            b'|' => bytes.push(b'\n')?,
            byte => bytes.push(byte)?,
        }
    }
    Ok(bytes)
}

// The value of a hexadecimal digit.
fn digit_of(digit: u8) -> Option<u32> {
    match digit {
        b'0'..=b'9' => Some(u32::from(digit - b'0')),
        b'A'..=b'F' => Some(u32::from(digit - b'A') + 10),
        _ => None,
    }
}

// Puts the bytes of a number of so many hexadecimal digits behind others, the lowest first.
fn put_number(bytes: &mut Vec<u8>, number: u32, digits: usize) -> Result<(), Fail> {
    let size = digits / 2;
    if size > 4 {
        return Err(Fail::new("a number has eight digits at most"));
    }
    let number = number.to_le_bytes();
    bytes.extend_from_slice(&number[..size])?;
    Ok(())
}

// A text, and the numbers of a row behind it.
fn numbers(alloc: Global, before: &[u8], row: &[u8]) -> Result<Vec<u8>, Fail> {
    let mut bytes = Vec::from_slice(alloc, before)?;
    let mut number = 0u32;
    let mut digits = 0usize;
    for byte in row {
        if *byte == b' ' {
            put_number(&mut bytes, number, digits)?;
            number = 0;
            digits = 0;
        } else {
            number = number << 4 | digit_of(*byte).ok_or("no digit")?;
            digits = digits.saturating_add(1);
        }
    }
    put_number(&mut bytes, number, digits)?;
    Ok(bytes)
}

// Whether the file of a row's source holds what is expected.
pub fn holds_parts(alloc: Global, form: Form, row: &[u8]) -> Result<bool, Fail> {
    let (source, expected) = sides(row).ok_or("no row")?;
    let (before, after, nop) = match form {
        Form::Parts => (b"".as_slice(), b"".as_slice(), b"".as_slice()),
        Form::Bytes | Form::Text => (
            b"nop\n.data\n".as_slice(),
            b"\n".as_slice(),
            b"\x13\0\0\0".as_slice(),
        ),
    };
    let mut source = joined(alloc, before, source)?;
    source.extend_from_slice(after)?;
    let file = file_of(alloc, source.as_slice())?;
    let parts = match form {
        Form::Parts | Form::Bytes => numbers(alloc, nop, expected)?,
        Form::Text => joined(alloc, nop, expected)?,
    };
    Ok(from(file.as_slice(), 116) == parts.as_slice())
}

// What a refusal is named in a row.
fn kind_of(name: &[u8]) -> Option<AsmKind> {
    match name {
        [b'D', ..] => Some(AsmKind::DoubleLabel),
        [b'O', ..] => Some(AsmKind::OutOfRange),
        [b'S', ..] => Some(AsmKind::Syntax),
        [b'T', ..] => Some(AsmKind::TooLong),
        [b'U', ..] => Some(AsmKind::UnknownLabel),
        _ => None,
    }
}

// The refusal of which a row tells: the number of a line, and the kind.
fn fault_of(expected: &[u8]) -> Option<AsmFault> {
    let mut line = 0u32;
    for at in 0..expected.len() {
        match from(expected, at) {
            [b' ', ..] => {
                let kind = kind_of(from(expected, at + 1))?;
                return Some(AsmFault::At { kind, line });
            }
            [digit, ..] => line = with_digit(line, *digit),
            [] => return None,
        }
    }
    None
}

// Whether the source of a row is refused as is expected.
pub fn is_refused(alloc: Global, row: &[u8]) -> Result<bool, Fail> {
    let (source, expected) = sides(row).ok_or("no row")?;
    let fault = fault_of(expected).ok_or("no refusal")?;
    let source = joined(alloc, b"", source)?;
    Ok(refusal(alloc, source.as_slice()) == Some(fault))
}

// Whether the file of a row has so many bytes, and these words at their places.
pub fn has_words(
    alloc: Global,
    row: &[u8],
    length: usize,
    words: &[(usize, u32)],
) -> Result<bool, Fail> {
    let source = joined(alloc, b"", row)?;
    let file = file_of(alloc, source.as_slice())?;
    for (place, word) in words {
        if word_at(file.as_slice(), *place) != Some(*word) {
            return Ok(false);
        }
    }
    Ok(file.len() == length)
}

// Whether a line behind others is refused for a reason.
pub fn is_refused_behind(
    alloc: Global,
    before: &[u8],
    row: &[u8],
    fault: AsmFault,
) -> Result<bool, AllocError> {
    let source = joined(alloc, before, row)?;
    Ok(refusal(alloc, source.as_slice()) == Some(fault))
}
