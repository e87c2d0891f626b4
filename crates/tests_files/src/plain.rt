//! A file as a plain list of bytes, with the pages that it has taken.

ghost use Rattle.std.specs.Prelude.{◌≡◌, ◌<◌, ◌≤◌, ℕ};

use std::alloc::AllocError;

/// The bytes of a file, and whether the page of each number is taken, of at most 64.
#[derive(Drop)]
pub struct Plain {
    pub bytes: Vec<u8>,
    pub taken: [bool; 64],
}

/// How many pages a file of so many bytes is promised.
pub fn promised_for(length: usize) -> usize {
    length / 4096 + (if length % 4096 == 0 { 0 } else { 1 })
}

/// Gives a file another length, with zeros behind its bytes. What is cut off takes no page any more.
pub fn resize(plain: &mut Plain, length: usize) -> Result<(), AllocError> {
    plain.bytes.truncate(length);
    for _ in plain.bytes.len()..length {
        plain.bytes.push(0)?;
    }
    for page in promised_for(length)..64 {
        plain.taken[page] = false;
    }
    Ok(())
}

// Puts one byte at a place that is there.
fn put_byte(plain: &mut Plain, at: usize, byte: u8) {
    match plain.bytes.get_mut(at) {
        Some(place) => *place = byte,
        None => {}
    }
    if at / 4096 < 64 {
        plain.taken[at / 4096] = true;
    }
}

/// Writes bytes from a place on.
pub fn put(plain: &mut Plain, at: u32, from: &[u8]) -> Result<(), AllocError> {
    let end = (at as usize).saturating_add(from.len());
    if plain.bytes.len() < end {
        resize(plain, end)?;
    }
    for i in 0..from.len() {
        put_byte(plain, (at as usize).saturating_add(i), from[i]);
    }
    Ok(())
}

/// The bytes from a place on, at most so many.
pub fn part(plain: &Plain, at: u32, count: usize) -> Option<&[u8]> {
    let end = (at as usize).saturating_add(count).min(plain.bytes.len());
    plain.bytes.get((at as usize).min(end)..end)
}

// How many pages a file has taken.
fn taken_by(plain: &Plain) -> u32 {
    let mut count = 0u32;
    for page in 0..64 {
        if plain.taken[page] {
            count = count.wrapping_add(1);
        }
    }
    count
}

/// How many pages all files are promised.
pub fn all_promised(plains: &[Plain]) -> usize {
    let mut sum = 0usize;
    for plain in plains {
        sum = sum.saturating_add(promised_for(plain.bytes.len()));
    }
    sum
}

/// How many pages all files have taken.
pub fn all_taken(plains: &[Plain]) -> u32 {
    let mut sum = 0u32;
    for plain in plains {
        sum = sum.wrapping_add(taken_by(plain));
    }
    sum
}

/// A number below a limit, of a row of numbers that looks random.
pub fn next(random: &mut u32, limit: u32) -> u32
    requires { 0 < limit }
    ensures { result < limit }
{
    *random = random.wrapping_mul(1_664_525).wrapping_add(1_013_904_223);
    *random / 256 % limit
}
