//! Whole runs of `once` over bundles, and over the console input behind them.

use super::{Left, run, run_failing};
use std::alloc::{AllocError, Global};
use std::process::Abort;
use std::test::Fail;

const ONCE: [&str; 2] = ["d", "once"];

/// A program that exits with 0, with the console input of a line behind it.
const EXIT_0: &[u8] = b"keynix bundle 1\nasm /init 3\nli a7, 1\nli a0, 0\necall\nend\nhi\n";

/// The head of the bundle of a session.
const SESSION: &[u8] = b"\
keynix bundle 1
dir /bin
dir /etc
user /init init
user /bin/cat cat
user /bin/wc wc
text /etc/motd 2
hello there
second line
end
";

/// Runs the session over these console lines.
fn session(alloc: Global, lines: &[u8], fails: [&[u32]; 3]) -> Result<Left, AllocError> {
    let mut input = Vec::from_slice(alloc, SESSION)?;
    input.extend_from_slice(lines)?;
    run_failing(alloc, &ONCE, &input, fails)
}

/// Checks the status, the note and the output of `d once` over an input.
fn check(
    rt: &(impl Abort + Alloc<A = Global>),
    input: &[u8],
    status: u8,
    note: &str,
    output: &[u8],
) -> Result<(), AllocError> {
    let left = run(rt.alloc(), &ONCE, input)?;
    assert_eq!(rt; left.notes.as_slice(), note.as_bytes());
    assert_eq!(rt; left.output.as_slice(), output);
    assert_eq!(rt; left.status, status);
    Ok(())
}

#[test]
fn console_input_that_nobody_reads_is_not_looked_at(rt: HostRuntime) -> Result<(), Fail> {
    check(&rt, EXIT_0, 0, "halted 0\n", b"")?;
    // The input's call of number 55, from 0, is that of the line feed of `end`.
    for (call, status, note) in [(55, 3, "read fault\n"), (56, 0, "halted 0\n")] {
        let left = run_failing(rt.alloc(), &ONCE, EXIT_0, [&[call], &[], &[]])?;
        assert_eq!(rt; left.notes.as_slice(), note.as_bytes());
        assert_eq!(rt; left.status, status);
    }
    Ok(())
}

#[test]
fn bundles_are_refused_at_their_first_bad_line(rt: HostRuntime) -> Result<(), Fail> {
    let rows: [(&[u8], &str); 16] = [
        (b"", "Syntax 1"),
        (b"keynix", "Syntax 1"),
        (b"\x7E", "Syntax 1"),
        (b"keynix bundle 1\n", "Syntax 2"),
        (b"keynix bundle 1\nend\n", "NoInit 2"),
        (b"keynix bundle 1\ndir /a\ndir /a\nend\n", "Twice 3"),
        (b"keynix bundle 1\ntext /b/c 0\nend\n", "NoParent 2"),
        (
            b"keynix bundle 1\nasm /init 3\nli a7, 1\nfoo\necall\nend\n",
            "BadAsm 4",
        ),
        (b"keynix bundle 1\nuser /init sh\nend\n", "Syntax 2"),
        (b"keynix bundle 1\ntext init 0\nend\n", "BadPath 2"),
        (b"keynix bundle 1\ntext /init 2\none\n", "Syntax 4"),
        (b"keynix bundle 1\nhex /init 1\n7f4\nend\n", "BadHex 3"),
        (
            b"keynix bundle 1\ndir /0123456789012345678901234567\nend\n",
            "TooLong 2",
        ),
        (b"keynix bundle 1\ndir /init\nend\n", "NoInit 3"),
        // What `/init` is: too short for a header, and no ELF file.
        (b"keynix bundle 1\ntext /init 0\nend\n", "Short 0"),
        (
            b"keynix bundle 1\ntext /init 1\n----------------------------------------------------\nend\n",
            "NotElf 0",
        ),
    ];
    for (input, told) in rows {
        let note = format!(in rt.alloc(); "bad input {told}\n")?;
        check(&rt, input, 2, note.as_str(), b"")?;
    }
    Ok(())
}

/// A bundle whose `/init` is an ELF file without a byte to load, and with so many bytes of memory, all zero.
fn big_program(alloc: Global, memory: &str) -> Result<Vec<u8>, AllocError> {
    let mut bundle = Vec::from_slice(alloc, b"keynix bundle 1\nhex /init 3\n")?;
    bundle.extend_from_slice(b"7f454c46010101000000000000000000\n")?;
    bundle.extend_from_slice(b"0200f300010000000000010034000000")?;
    bundle.extend_from_slice(b"0000000000000000340020000100000000000000\n")?;
    bundle.extend_from_slice(b"0100000054000000000001000000010000000000")?;
    bundle.extend_from_slice(memory.as_bytes())?;
    bundle.extend_from_slice(b"0500000001000000\nend\n")?;
    Ok(bundle)
}

#[test]
fn want_of_room_is_told_of_an_entrys_line_and_of_none_for_the_first_program(
    rt: HostRuntime,
) -> Result<(), Fail> {
    // Of 64 pages the root has one, and each file one more: the 64th file finds none. Its line is 2 + 2 * 63.
    let mut bundle = Vec::from_slice(rt.alloc(), b"keynix bundle 1\n")?;
    for number in 0..80u32 {
        bundle.extend_from_slice(format!(in rt.alloc(); "text /f{number} 1\n+\n")?.as_bytes())?;
    }
    let left = run(rt.alloc(), &["d", "once", "--pages=64"], &bundle)?;
    assert_eq!(rt; left.notes.as_slice(), b"bad input NoRoom 128\n".as_slice());
    assert_eq!(rt; (left.status, left.output.len()), (2, 0));
    // 8,310,784 bytes of memory have room beside one page of the file, and one more byte has none.
    for (memory, status, note) in [
        ("00d07e00", 0, "halted signal 4\n"),
        ("01d07e00", 2, "bad input NoRoom 0\n"),
    ] {
        let bundle = big_program(rt.alloc(), memory)?;
        check(&rt, &bundle, status, note, b"")?;
    }
    Ok(())
}

#[test]
fn a_read_of_the_console_gives_a_line_at_most(rt: HostRuntime) -> Result<(), Fail> {
    // Three reads of ten bytes; each one's count is written as a digit.
    let input = b"\
keynix bundle 1
asm /init 19
addi sp, sp, -128
li s0, 3
next: addi a1, sp, 64
li a0, 0
li a2, 10
li a7, 11
ecall
addi a0, a0, 48
sb a0, 0(sp)
mv a1, sp
li a0, 1
li a2, 1
li a7, 12
ecall
addi s0, s0, -1
bne s0, zero, next
li a0, 0
li a7, 1
ecall
end
ab
c";
    check(&rt, input, 0, "halted 0\n", b"310")?;
    Ok(())
}

#[test]
fn a_pipeline_counts_a_file(rt: HostRuntime) -> Result<(), Fail> {
    let rows: [(&[u8], &[u8]); 4] = [
        (b"", b""),
        (b"cat /etc/motd | wc\n", b"2 4 24\n"),
        (b"cat /etc/motd | wc", b"2 4 24\n"),
        (
            b"cat /etc/motd\ncat /etc/motd | cat | wc\n",
            b"hello there\nsecond line\n2 4 24\n",
        ),
    ];
    for (lines, output) in rows {
        let left = session(rt.alloc(), lines, [&[], &[], &[]])?;
        assert_eq!(rt; left.notes.as_slice(), b"halted 0\n".as_slice());
        assert_eq!(rt; left.output.as_slice(), output);
        assert_eq!(rt; left.status, 0);
    }
    Ok(())
}

#[test]
fn each_call_of_a_session_may_fail(rt: HostRuntime) -> Result<(), Fail> {
    let input =
        b"keynix bundle 1\nasm /init 8\nmv a1, sp\nli a2, 9\nli a7, 11\necall\nli a7, 1\nli a0, 0\necall\nnop\nend\nab\n";
    // Behind the call of the line feed that ends the read nothing is read.
    for call in 0..98u32 {
        let left = run_failing(rt.alloc(), &ONCE, input, [&[call], &[], &[]])?;
        assert_eq!(rt; left.notes.as_slice(), b"read fault\n".as_slice());
        assert_eq!(rt; (left.status, left.output.len()), (3, 0));
    }
    let left = run_failing(rt.alloc(), &ONCE, input, [&[98], &[], &[]])?;
    assert_eq!(rt; left.notes.as_slice(), b"halted 0\n".as_slice());
    // The output's calls of a session, and that of the note.
    for call in [0, 1] {
        let left = session(
            rt.alloc(),
            b"cat /etc/motd\ncat /etc/motd | wc\n",
            [&[], &[call], &[]],
        )?;
        assert_eq!(rt; left.notes.as_slice(), b"write fault\n".as_slice());
        assert_eq!(rt; left.status, 4);
    }
    let left = session(rt.alloc(), b"cat /etc/motd\n", [&[], &[], &[0]])?;
    assert_eq!(rt; (left.status, left.notes.len()), (4, 0));
    Ok(())
}

#[test]
fn each_call_of_a_pipeline_may_fail(rt: HostRuntime) -> Result<(), Fail> {
    let line = b"cat /etc/motd | wc\n".as_slice();
    // A call for each byte, and one that finds the end.
    let calls = (SESSION.len() + line.len() + 1) as u32;
    for call in 0..calls {
        let left = session(rt.alloc(), line, [&[call], &[], &[]])?;
        assert_eq!(rt; left.notes.as_slice(), b"read fault\n".as_slice());
        assert_eq!(rt; left.status, 3);
    }
    // The output's calls, and that of the note.
    let rows: [([&[u32]; 3], u8, &str); 3] = [
        ([&[calls], &[1], &[1]], 0, "halted 0\n"),
        ([&[], &[0], &[]], 4, "write fault\n"),
        ([&[], &[], &[0]], 4, ""),
    ];
    for (fails, status, note) in rows {
        let left = session(rt.alloc(), line, fails)?;
        assert_eq!(rt; left.notes.as_slice(), note.as_bytes());
        assert_eq!(rt; left.status, status);
    }
    Ok(())
}
