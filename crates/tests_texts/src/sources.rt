//! Whole sources: what their files hold, and where they are refused.
//!
//! Words of instructions are what LLVM's assembler (`llvm-mc` 14.0.6, `--arch=riscv32 --mattr=-c,-relax`) makes of them, with
//! a distance in the place of a label. Distances and addresses are counted by hand.

use crate::assembling::{Form, file_of, has_words, refusal};
use crate::tables::{Case, Table, check_tables};
use rv_asm::AsmKind;
use std::alloc::{AllocError, Global};
use std::test::Fail;

/// The file of three instructions: `li a0, 7`, `li a7, 1`, `ecall`.
const EXIT_7: [u8; 128] = [
    0x7F, 0x45, 0x4C, 0x46, 0x01, 0x01, 0x01, 0x00, 0x00, 0x00, 0x00, 0x00, 0x00, 0x00, 0x00, 0x00,
    0x02, 0x00, 0xF3, 0x00, 0x01, 0x00, 0x00, 0x00, 0x00, 0x00, 0x01, 0x00, 0x34, 0x00, 0x00, 0x00,
    0x00, 0x00, 0x00, 0x00, 0x00, 0x00, 0x00, 0x00, 0x34, 0x00, 0x20, 0x00, 0x02, 0x00, 0x00, 0x00,
    0x00, 0x00, 0x00, 0x00, 0x01, 0x00, 0x00, 0x00, 0x74, 0x00, 0x00, 0x00, 0x00, 0x00, 0x01, 0x00,
    0x00, 0x00, 0x01, 0x00, 0x0C, 0x00, 0x00, 0x00, 0x0C, 0x00, 0x00, 0x00, 0x05, 0x00, 0x00, 0x00,
    0x01, 0x00, 0x00, 0x00, 0x01, 0x00, 0x00, 0x00, 0x80, 0x00, 0x00, 0x00, 0x00, 0x10, 0x01, 0x00,
    0x00, 0x10, 0x01, 0x00, 0x00, 0x00, 0x00, 0x00, 0x00, 0x00, 0x00, 0x00, 0x06, 0x00, 0x00, 0x00,
    0x01, 0x00, 0x00, 0x00, 0x13, 0x05, 0x70, 0x00, 0x93, 0x08, 0x10, 0x00, 0x73, 0x00, 0x00, 0x00,
];

// The places of labels are counted by hand: text begins at 0x10000, and data at 0x11000 behind so little text.
const LABELS: &[u8] = b"\
la a0, d|.data|d: .byte 1 => 00011537 00050513 01\n\
d: .data|.text|la a0, d => 00010537 00050513\n\
nop|d: .data|.byte 1|.text|la a0, d => 00000013 00010537 00450513 01\n\
la a0, t|.data|.byte 1|t: .text|nop => 00011537 00150513 00000013 01\n\
nop|t: .text|j t => 00000013 0000006F\n\
la a0, p|.data|.byte 1|p: .align 2|.byte 2 => 00011537 00150513 01 00 00 00 02\n\
la a0, p|.data|.byte 1|.align 2|p: .byte 2 => 00011537 00450513 01 00 00 00 02\n\
la a0, p|.data|.byte 1|.text|nop|.data|p: .byte 2 => 00011537 00150513 00000013 01 02\n\
la a0, p|.data|.ascii \"abc\"|p: => 00011537 00350513 61 62 63\n\
.data|p: .word 1|.text|q: nop|la a0, p|la a1, q => 00000013 00011537 00050513 000105B7 00058593 01 00 00 00\n\
j p|.data|.byte 7|.byte 8|p: => 0020106F 07 08\n\
nop|call p|.data|p: .byte 1 => 00000013 7FD000EF 01\n\
.data|.byte 2|.text|nop => 00000013 02\n\
.text|.data|.data|.text|.text|nop => 00000013\n\
";

// Each with what is refused and the number of its line.
const REFUSALS: &[u8] = b"\
a: j a|a: nop => 2 DoubleLabel\n\
\x20=> 1 Syntax\n\
| => 2 Syntax\n\
|| => 3 Syntax\n\
# c => 2 Syntax\n\
a: => 2 Syntax\n\
.data|.word 1| => 3 Syntax\n\
.data|.word 1 => 3 Syntax\n\
j b|li a0 => 2 Syntax\n\
j b|li a0, 4294967296|nop nop => 3 Syntax\n\
j b|a:|a:| => 3 DoubleLabel\n\
nop nop|mv a0 => 1 Syntax\n\
a:|a:|NOP => 2 DoubleLabel\n\
a:|NOP|a: => 2 Syntax\n\
li a0, 4294967296|j b => 1 OutOfRange\n\
j b|li a0, 4294967296 => 1 UnknownLabel\n\
nop|j b|j c => 2 UnknownLabel\n\
.data|.byte 256|.text|j b => 2 OutOfRange\n\
.data|.byte 256| => 3 Syntax\n\
a: nop|a: NOP => 2 DoubleLabel\n\
a: NOP|a: nop => 1 Syntax\n\
a: nop|1: NOP => 2 Syntax\n\
nop|a:|.data|a: .byte 1 => 4 DoubleLabel\n\
nop|.data|.space 1048577|.word => 4 Syntax\n\
nop|.data|.space -1|.byte 256 => 3 OutOfRange\n\
j a|.data|.space 1048577|a: => 1 OutOfRange\n\
j a|.data|.space 4000000|a: => 1 OutOfRange\n\
.data|.space 1048577|a: .text|j a => 2 OutOfRange\n\
|nop\r| => 2 Syntax\n\
nop\r|nop => 1 Syntax\n\
j b||| => 1 UnknownLabel\n\
nop|.data|.byte 1|.text|.byte 1 => 5 Syntax\n\
.data|nop => 2 Syntax\n\
nop|.data|.text|.data|nop => 5 Syntax\n\
";

const TOO_FAR_OR_ODD: &[u8] = b"\
beq a0, a1, a|{1023*nop|}a: nop| => 1 OutOfRange\n\
a:{1025*nop|}beq a0, a1, a| => 1026 OutOfRange\n\
{1023*nop|}beq a0, a1, a|.data|.space 4092|a: => 1024 OutOfRange\n\
{1023*nop|}beq a0, a1, a|.data|.space 4091|a: => 1024 OutOfRange\n\
bnez a0, a|.data|a: => 1 OutOfRange\n\
j a|.data|.space 1044480|a: => 1 OutOfRange\n\
j a|.data|.space 1044479|a: => 1 OutOfRange\n\
nop|call a|.data|.byte 1|a: => 2 OutOfRange\n\
";

// Each with the length of its file and words in it: the farthest branches and jumps; data at the next page behind the text; a
// part of 1,048,576 bytes, which is the largest; and the longest text, in which a jump back to its beginning is not too far,
// since a line has at most eight bytes.
const PLACES: &[(&[u8], usize, &[(usize, u32)])] = &[
    (
        b"beq a0, a1, a|{1022*nop|}a: nop|",
        4212,
        &[(116, 0x7EB5_0EE3)],
    ),
    (b"a:{1024*nop|}beq a0, a1, a|", 4216, &[(4212, 0x80B5_0063)]),
    (
        b"{1023*nop|}beq a0, a1, a|.data|.space 4090|a:",
        8302,
        &[(4208, 0x7EB5_0FE3)],
    ),
    (
        b"j a|.data|.space 1044478|a:",
        1_044_598,
        &[(116, 0x7FFF_F06F)],
    ),
    (
        b"{1*nop|}.data|.ascii \"abc\"",
        123,
        &[
            (68, 4),
            (72, 4),
            (88, 120),
            (92, 0x11000),
            (96, 0x11000),
            (100, 3),
            (104, 3),
        ],
    ),
    (
        b"{1023*nop|}.data|.ascii \"abc\"",
        4211,
        &[
            (68, 4092),
            (72, 4092),
            (88, 4208),
            (92, 0x11000),
            (96, 0x11000),
            (100, 3),
            (104, 3),
        ],
    ),
    (
        b"{1024*nop|}.data|.ascii \"abc\"",
        4215,
        &[
            (68, 4096),
            (72, 4096),
            (88, 4212),
            (92, 0x11000),
            (96, 0x11000),
            (100, 3),
            (104, 3),
        ],
    ),
    (
        b"{1025*nop|}.data|.ascii \"abc\"",
        4219,
        &[
            (68, 4100),
            (72, 4100),
            (88, 4216),
            (92, 0x12000),
            (96, 0x12000),
            (100, 3),
            (104, 3),
        ],
    ),
    (
        b"{2049*nop|}.data|.ascii \"abc\"",
        8315,
        &[
            (68, 8196),
            (72, 8196),
            (88, 8312),
            (92, 0x13000),
            (96, 0x13000),
            (100, 3),
            (104, 3),
        ],
    ),
    (b"nop|.data|.space 1048576|", 1_048_696, &[(100, 1_048_576)]),
    (
        b"nop|.data|.space 1048575|.byte 1|",
        1_048_696,
        &[(100, 1_048_576)],
    ),
    (
        b"nop|.data|.space 1048572|.word 1|",
        1_048_696,
        &[(100, 1_048_576)],
    ),
    (
        b"nop|.data|.space 1048570|.ascii \"abcdef\"|",
        1_048_696,
        &[(100, 1_048_576)],
    ),
    (
        b"nop|.data|.space 1044481|.align 12|",
        1_048_696,
        &[(100, 1_048_576)],
    ),
    (
        b"nop|.data|.space 1048576|.space 0|.align 12|.ascii \"\"|a:|",
        1_048_696,
        &[(100, 1_048_576)],
    ),
    (
        b"a:{99998*li a0, 4096|}j a|nop",
        800_108,
        &[(800_100, 0xB113_C06F)],
    ),
];

const PASSING: &[u8] = b"\
.space 1048576|.byte 1|.byte 2\n\
.space 1048573|.word 1\n\
.space 1048571|.ascii \"abcdef\"\n\
.byte 1|.space 1048576\n\
";

const MOST_LINES: &[u8] = b"\
a: nop|{99999*|} => 00000013\n\
";

const TOO_MANY_LINES: &[u8] = b"\
a: nop|{100000*|} => 100001 TooLong\n\
a: nop|{99999*|}# c => 100001 TooLong\n\
a: nop|{99999*|}NOP|NOP => 100001 TooLong\n\
j b|{100000*|} => 100001 TooLong\n\
a: nop|{99998*|}NOP|| => 100000 Syntax\n\
a: nop|{99998*|}a:|| => 100000 DoubleLabel\n\
{100000*|} => 100001 Syntax\n\
";

const LONGEST_LINES: &[u8] = b"\
nop#{1020*c} => 00000013\n\
nop#{1020*\xFF}| => 00000013\n\
nop{1021* }| => 00000013\n\
{1021*\t}nop => 00000013\n\
";

const TOO_LONG_LINES: &[u8] = b"\
nop#{1021*c} => 1 TooLong\n\
nop|{1025* }| => 2 TooLong\n\
j b|nop#{1021*c} => 2 TooLong\n\
a: nop|a: nop#{1018*c}|NOP => 2 TooLong\n\
nop|1: nop#{1018*c} => 2 TooLong\n\
";

// Whether a source is assembled with a byte between two texts.
fn is_accepted_with(
    alloc: Global,
    before: &[u8],
    byte: u8,
    after: &[u8],
) -> Result<bool, AllocError> {
    let mut source = Vec::from_slice(alloc, before)?;
    source.push(byte)?;
    source.extend_from_slice(after)?;
    Ok(refusal(alloc, source.as_slice()).is_none())
}

// Whether a byte is accepted where it may stand, and nowhere else.
fn stands_where_it_may(alloc: Global, byte: u8) -> Result<bool, AllocError> {
    let is_blank = byte == b' ' || byte == b'\t';
    let is_end = byte == b'#' || byte == b'\n';
    let is_name = byte.is_ascii_alphanumeric() || byte == b'_';
    let found = [
        is_accepted_with(alloc, b"nop\n", byte, b"")?,
        is_accepted_with(alloc, b"nop\nnop", byte, b"")?,
        is_accepted_with(alloc, b"li", byte, b"a0, 1")?,
        is_accepted_with(alloc, b"nop # ", byte, b" NOP")?,
        is_accepted_with(alloc, b"b", byte, b": nop")?,
        is_accepted_with(alloc, b"", byte, b"b: nop")?,
        is_accepted_with(alloc, b"nop\n.data\n.ascii \"", byte, b"\"")?,
        is_accepted_with(alloc, b"nop\n.data\n.ascii \"\\", byte, b"\"")?,
    ];
    let expected = [
        is_blank || is_end,
        is_blank || is_end || byte == b':',
        is_blank,
        byte != b'\n',
        is_name,
        is_blank || byte == b'\n' || (is_name && !byte.is_ascii_digit()),
        b' ' <= byte && byte <= b'~' && byte != b'"' && byte != b'\\',
        byte == b'n' || byte == b'"' || byte == b'\\',
    ];
    Ok(found == expected)
}

const TABLES: &[Table] = &[
    (Case::Parts(Form::Parts), LABELS),
    (Case::Refusal, REFUSALS),
    (Case::Refusal, TOO_FAR_OR_ODD),
    (
        Case::Refused(b"nop\n.data\n", AsmKind::OutOfRange, 4),
        PASSING,
    ),
    (Case::Parts(Form::Parts), MOST_LINES),
    (Case::Refusal, TOO_MANY_LINES),
    (Case::Parts(Form::Parts), LONGEST_LINES),
    (Case::Refusal, TOO_LONG_LINES),
];

#[test]
fn sources_become_their_parts_or_are_refused(rt: HostRuntime) -> Result<(), Fail> {
    check_tables(rt.alloc(), TABLES)
}

#[test]
fn files_have_their_words_and_bytes_their_places(rt: HostRuntime) -> Result<(), Fail> {
    for source in [
        b"li a0, 7\nli a7, 1\necall\n".as_slice(),
        b"li a0, 7\nli a7, 1\necall",
    ] {
        assert!(rt; file_of(rt.alloc(), source)?.as_slice() == EXIT_7.as_slice());
    }
    for (row, length, words) in PLACES {
        assert!(rt; has_words(rt.alloc(), row, *length, words)?, "{length}");
    }
    for byte in 0..=255u8 {
        assert!(rt; stands_where_it_may(rt.alloc(), byte)?, "{byte}");
    }
    Ok(())
}
