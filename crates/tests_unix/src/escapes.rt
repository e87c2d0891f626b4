//! Texts and numbers as sessions write them.

use std::io;

/// What a session's line that isn't of the form is told as.
pub(crate) fn malformed() -> io::Error {
    io::Error::from(io::ErrorKind::InvalidData)
}

/// The bytes of a text with escapes: `\n` a line feed, `\0` a zero, `\s` a space, `\\` a backslash.
pub(crate) fn bytes_of(alloc: std::alloc::Global, text: &str) -> io::Result<Vec<u8>> {
    let mut bytes = Vec::new(alloc);
    let mut is_escaped = false;
    for byte in text.as_bytes() {
        if is_escaped {
            let meant = match *byte {
                b'n' => b'\n',
                b'0' => 0,
                b's' => b' ',
                b'\\' => b'\\',
                _ => return Err(malformed()),
            };
            bytes.push(meant)?;
            is_escaped = false;
        } else if *byte == b'\\' {
            is_escaped = true;
        } else {
            bytes.push(*byte)?;
        }
    }
    Ok(bytes)
}

/// The word of a number: decimal, with a sign or without, or hexadecimal after `0x`.
pub(crate) fn word_of(text: &str) -> io::Result<u32> {
    let number = match text.strip_prefix("0x") {
        Some(digits) => i64::from_str_radix(digits, 16).ok(),
        None => text.parse::<i64>().ok(),
    };
    match number {
        Some(number) => Ok(number.rem_euclid(1 << 32) as u32),
        None => Err(malformed()),
    }
}
