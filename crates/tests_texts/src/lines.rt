//! Lines at the edges of what they may be, and numbers at the edges of theirs.

ghost use Rattle.std.specs.Prelude.{◌≡◌, ℕ, List, Some, length, IfOk};
ghost use Rattle.unix_model.specs.Texts.{lines_of};

use crate::assembling::{first_row, joined, sides};
use crate::streams::{byte_source, mem_source, rest_of_bytes};
use crate::tables::{Case, Table, check_tables};
use arrayvec::ArrayVec;
use kn_io::{ByteSource, Source};
use kn_text::{LineFault, LineReader, NumberFault, number_of};
use std::alloc::Global;
use std::test::Fail;

// The next line. A test has a few lines only.
fn next<S: Source>(
    reader: &mut LineReader,
    from: &mut S,
    into: &mut ArrayVec<u8, 1024>,
) -> Result<bool, LineFault> {
    if reader.line() < 100 {
        reader.next_line(from, into)
    } else {
        Err(LineFault::TooLong)
    }
}

// The number of the last line. What it is is not said, here and below, so that each test is proved quickly.
fn number_of_line(reader: &LineReader) -> u32 {
    reader.line()
}

// A reader that has read the byte before, if there is one.
fn reader_behind(first: Option<u8>) -> LineReader {
    match first {
        Some(first) => LineReader::with_first(first),
        None => LineReader::new(),
    }
}

// The lines that a reader finds, each with `;` behind it. They are numbered from 1, and the end comes again.
fn lines_found(
    alloc: Global,
    mut reader: LineReader,
    mut source: ByteSource,
) -> Result<Vec<u8>, Fail> {
    let mut line = ArrayVec::new();
    let mut found = Vec::new(alloc);
    for number in 1..100u32 {
        if !next(&mut reader, &mut source, &mut line)? {
            let still = next(&mut reader, &mut source, &mut ArrayVec::new())?;
            if still || !line.is_empty() || number_of_line(&reader) != number - 1 {
                return Err(Fail::new("another end"));
            }
            return Ok(found);
        }
        if number_of_line(&reader) != number {
            return Err(Fail::new("another number"));
        }
        found.extend_from_slice(line.as_slice())?;
        found.push(b';')?;
    }
    Err(Fail::new("no end"))
}

// Whether the source of a row has the lines of the row, and a reader of all but its first byte behind that byte.
pub fn has_lines(alloc: Global, row: &[u8], is_behind: bool) -> Result<bool, Fail> {
    let (bytes, expected) = sides(row).ok_or("no row")?;
    let bytes = joined(alloc, b"", bytes)?;
    let (first, bytes) = match bytes.as_slice() {
        [first, rest @ ..] if is_behind => (Some(*first), rest),
        bytes => (None, bytes),
    };
    let source = byte_source(alloc, bytes)?;
    let found = lines_found(alloc, reader_behind(first), source)?;
    Ok(found.as_slice() == expected)
}

const LINES: &[u8] = b"\
\x20=> \n\
| => ;\n\
ab => ab;\n\
ab| => ab;\n\
ab|cd => ab;cd;\n\
||a|| => ;;a;;\n\
a\r|\0\xFF => a\r;\0\xFF;\n\
";

// How many lines a source has. A test has a few only.
fn count_lines<S: Source>(from: &mut S) -> Result<u32, LineFault>
    ensures { IfOk result (λ count. (bytes : List ℕ) → S.left from.old ≡ Some bytes → length (lines_of bytes) ≡ count) }
{
    let mut reader = LineReader::new();
    let mut line = ArrayVec::new();
    'lines: while reader.line() < 100 {
        match reader.next_line(from, &mut line) {
            Ok(true) => {}
            Ok(false) => return Ok(reader.line()),
            Err(fault) => return Err(fault),
        }
    }
    Err(LineFault::TooLong)
}

// How many lines a text has, where all of it is read.
fn counted(alloc: Global, bytes: &[u8]) -> Result<Option<u32>, Fail> {
    let mut source = byte_source(alloc, bytes)?;
    let count = count_lines(&mut source)?;
    Ok(rest_of_bytes(&source).is_empty().then_some(count))
}

const COUNTS: &[(&[u8], u32)] = &[
    (b"", 0),
    (b"\n", 1),
    (b"a", 1),
    (b"a\n\nb", 3),
    (b"\n\n\n", 3),
];

// Whether a text is cut into this line and the rest.
fn is_cut(text: &[u8], line: &[u8], rest: &[u8]) -> bool {
    first_row(text) == (line, rest)
}

// A text, and what it is cut into.
const CUTS: &[(&[u8], &[u8], &[u8])] = &[
    (b"", b"", b""),
    (b"\n", b"", b""),
    (b"\na", b"", b"a"),
    (b"ab", b"ab", b""),
    (b"ab\n", b"ab", b""),
    (b"ab\ncd\n", b"ab", b"cd\n"),
    (b"ab\n\n", b"ab", b"\n"),
];

const LINES_BEHIND_A_BYTE: &[u8] = b"\
ab|c => ab;c;\n\
a|c => a;c;\n\
|a| => ;a;\n\
| => ;\n\
a => a;\n\
";

// A source, what is read of it first, how many bytes the line has, and how many are left.
const LONG_LINES: &[(&[u8], Result<bool, LineFault>, usize, usize)] = &[
    (b"{1023*a}|b", Ok(true), 1023, 1),
    (b"{1024*a}|b", Ok(true), 1024, 1),
    (b"{1024*a}", Ok(true), 1024, 0),
    (b"{1025*a}|b", Err(LineFault::TooLong), 1024, 2),
    (b"{1025*a}", Err(LineFault::TooLong), 1024, 0),
    (b"{3000*a}", Err(LineFault::TooLong), 1024, 1975),
];

// What is read of a source, how many bytes the line has, and how many are left.
fn long_line(
    alloc: Global,
    source: &[u8],
) -> Result<(Result<bool, LineFault>, usize, usize), Fail> {
    let mut source = byte_source(alloc, joined(alloc, b"", source)?.as_slice())?;
    let mut line = ArrayVec::new();
    let read = next(&mut reader_behind(None), &mut source, &mut line);
    Ok((read, line.len(), rest_of_bytes(&source).len()))
}

// What is read twice behind a line feed, and the number of the last line.
type Twice = (Result<bool, LineFault>, Result<bool, LineFault>, u32);

fn read_twice(alloc: Global, source: &[u8]) -> Result<Twice, Fail> {
    let mut source = byte_source(alloc, joined(alloc, b"", source)?.as_slice())?;
    let mut line = ArrayVec::new();
    let mut reader = reader_behind(Some(b'\n'));
    let first = next(&mut reader, &mut source, &mut line);
    let second = next(&mut reader, &mut source, &mut line);
    Ok((first, second, number_of_line(&reader)))
}

// Whether so many lines of two come before a call that fails, and this part of the next one, with this number.
fn is_fault(
    alloc: Global,
    call: u32,
    lines: usize,
    part: &[u8],
    number: u32,
) -> Result<bool, Fail> {
    let mut source = mem_source(alloc, b"ab\nc", &[call])?;
    let mut line = ArrayVec::new();
    let mut reader = reader_behind(None);
    for _ in 0..lines {
        if !next(&mut reader, &mut source, &mut line)? {
            return Ok(false);
        }
    }
    let read = next(&mut reader, &mut source, &mut line);
    Ok(
        read == Err(LineFault::ReadFault)
            && line.as_slice() == part
            && number_of_line(&reader) == number,
    )
}

// A call that fails, how many lines come before it, and what of the next one, with its number.
const FAULTS: &[(u32, usize, &[u8], u32)] = &[
    (0, 0, b"", 0),
    (1, 0, b"a", 1),
    (2, 0, b"ab", 1),
    (3, 1, b"", 1),
    (4, 1, b"c", 2),
];

const TABLES: &[Table] = &[
    (Case::Lines(false), LINES),
    (Case::Lines(true), LINES_BEHIND_A_BYTE),
    (Case::NoNumber, NO_NUMBERS),
];

#[test]
fn lines_are_read_up_to_their_limits(rt: HostRuntime) -> Result<(), Fail> {
    let alloc = rt.alloc();
    check_tables(alloc, TABLES)?;
    for (text, count) in COUNTS {
        assert!(rt; counted(alloc, text)? == Some(*count), "{count}");
    }
    for (text, line, rest) in CUTS {
        assert!(rt; is_cut(text, line, rest));
    }
    for (source, read, length, left) in LONG_LINES {
        assert!(rt; long_line(alloc, source)? == (*read, *length, *left));
    }
    let begun = (Ok(true), Err(LineFault::TooLong), 2);
    assert!(rt; read_twice(alloc, b"{1025*a}|")? == begun);
    for (call, lines, part, number) in FAULTS {
        assert!(rt; is_fault(alloc, *call, *lines, part, *number)?, "{call}");
    }
    Ok(())
}

// What a text is as a number up to a limit.
fn answer(text: &[u8], most: u64) -> Result<u64, NumberFault> {
    number_of(text, most)
}

// Whether the text of a row is no number, whatever the limit.
pub fn is_no_number_row(alloc: Global, row: &[u8]) -> Result<bool, Fail> {
    let text = joined(alloc, b"", row)?;
    Ok(
        answer(text.as_slice(), u64::MAX) == Err(NumberFault::NotANumber)
            && answer(text.as_slice(), 0) == Err(NumberFault::NotANumber),
    )
}

const NO_NUMBERS: &[u8] = b"\
\n\
00\n\
01\n\
0x1\n\
-1\n\
+1\n\
\x201\n\
1 \n\
1.0\n\
1e3\n\
a\n\
/\n\
:\n\
1/\n\
1:\n\
1|\n\
123456789012345678901234567890x\n\
000000000000000000000000000000\n\
";

// A text, a limit and the answer.
const NUMBERS: &[(&[u8], u64, Result<u64, NumberFault>)] = &[
    (b"0", u64::MAX, Ok(0)),
    (b"1", u64::MAX, Ok(1)),
    (b"9", u64::MAX, Ok(9)),
    (b"10", u64::MAX, Ok(10)),
    (b"1024", u64::MAX, Ok(1024)),
    (b"4294967296", u64::MAX, Ok(4_294_967_296)),
    (
        b"18446744073709551614",
        u64::MAX,
        Ok(18_446_744_073_709_551_614),
    ),
    (b"18446744073709551615", u64::MAX, Ok(u64::MAX)),
    (b"1", 0, Err(NumberFault::TooLarge)),
    (b"64", 63, Err(NumberFault::TooLarge)),
    (b"100001", 100_000, Err(NumberFault::TooLarge)),
    (b"4294967296", 4_294_967_295, Err(NumberFault::TooLarge)),
    (
        b"18446744073709551615",
        18_446_744_073_709_551_614,
        Err(NumberFault::TooLarge),
    ),
    (
        b"18446744073709551616",
        u64::MAX,
        Err(NumberFault::TooLarge),
    ),
    (
        b"18446744073709551617",
        u64::MAX,
        Err(NumberFault::TooLarge),
    ),
    (
        b"36893488147419103232",
        u64::MAX,
        Err(NumberFault::TooLarge),
    ),
    (
        b"340282366920938463463374607431768211456",
        u64::MAX,
        Err(NumberFault::TooLarge),
    ),
    (
        b"123456789012345678901234567890",
        1,
        Err(NumberFault::TooLarge),
    ),
    (b"0", 0, Ok(0)),
    (b"63", 63, Ok(63)),
    (b"100000", 100_000, Ok(100_000)),
];

#[test]
fn numbers_are_plain_decimal_up_to_a_limit(rt: HostRuntime) {
    for (row, (text, most, number)) in NUMBERS.iter().enumerate() {
        assert!(rt; answer(text, *most) == *number, "row {row}");
    }
}
