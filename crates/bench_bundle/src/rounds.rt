//! One round, and the bundles that are read.

ghost use Rattle.std.specs.Prelude.{◌≡◌};
ghost use Rattle.bundle.specs.Views.{IsOpen};

use arrayvec::ArrayVec;
use bundle::{BundleReader, next_entry};
use kn_io::ByteSource;
use kn_text::LineReader;
use std::alloc::{AllocError, Global};

/// How many lines the first bundle has in its file.
const HEX_LINES: u32 = 4000;

/// How many files the second has.
const FILES: u32 = 1000;

// Puts a number in four decimal digits.
fn put_number(bytes: &mut Vec<u8>, number: u32) -> Result<(), AllocError> {
    for unit in [1000, 100, 10, 1] {
        bytes.push(b'0' + (number / unit % 10) as u8)?;
    }
    Ok(())
}

/// A bundle with a file of 4,000 lines of 32 bytes each.
pub fn bundle_of_hex(alloc: Global) -> Result<Vec<u8>, AllocError> {
    let mut bytes = Vec::from_slice(alloc, b"keynix bundle 1\nhex /init 4000\n")?;
    for _ in 0..HEX_LINES {
        bytes.extend_from_slice(
            b"000102030405060708090A0B0C0D0E0F101112131415161718191A1B1C1D1E1F\n",
        )?;
    }
    bytes.extend_from_slice(b"end\n")?;
    Ok(bytes)
}

/// A bundle with 1,000 files of one line.
pub fn bundle_of_files(alloc: Global) -> Result<Vec<u8>, AllocError> {
    let mut bytes = Vec::from_slice(alloc, b"keynix bundle 1\ndir /files\ntext /init 0\n")?;
    for number in 1..FILES {
        bytes.extend_from_slice(b"text /files/name_of_a_file_")?;
        put_number(&mut bytes, number)?;
        bytes.extend_from_slice(b" 1\nwhat the file holds, a line of some length\n")?;
    }
    bytes.extend_from_slice(b"end\n")?;
    Ok(bytes)
}

/// How many lines a bundle has, up to its line `end`, which each line is compared with; None where memory ran out, a line is too
/// long, or there is no such line.
pub fn lines_of(alloc: Global, text: &[u8]) -> Option<u32> {
    let bytes = match Vec::from_slice(alloc, text) {
        Ok(bytes) => bytes,
        Err(_) => return None,
    };
    let mut source = ByteSource::new(bytes);
    let mut reader = LineReader::new();
    let mut line = ArrayVec::new();
    'reading: while reader.line() < 1_000_000 {
        match reader.next_line(&mut source, &mut line) {
            Ok(true) => {
                if line.as_slice() == b"end".as_slice() {
                    return Some(reader.line());
                }
            }
            Ok(false) => return None,
            Err(_) => return None,
        }
    }
    None
}

/// How many entries a bundle has; None where memory ran out or it is refused.
pub fn entries_of(alloc: Global, text: &[u8]) -> Option<u32> {
    let bytes = match Vec::from_slice(alloc, text) {
        Ok(bytes) => bytes,
        Err(_) => return None,
    };
    let mut source = ByteSource::new(bytes);
    let mut reader = match BundleReader::new(alloc, None) {
        Ok(reader) => reader,
        Err(_) => return None,
    };
    'reading: for read in 0..5000u32 {
        match next_entry(alloc, &mut reader, &mut source) {
            Ok(Some(_)) => {}
            Ok(None) => return Some(read),
            Err(_) => return None,
        }
    }
    None
}
