//! Whole runs of the program over memory: its words, its input, its output and its notes.

mod assembling;
mod bundles;
mod loads;
mod schedules;

use crate::finish::Status;
use crate::top::keynix;
use kn_io::{MemSink, MemSource, NoMemory};
use std::alloc::{AllocError, Global};
use std::process::Abort;
use std::test::Fail;

/// What a linker wrote of `write(1, line, 6)`, `exit(7)` and `line: .ascii "linked"`, with sections and e_flags set:
/// `clang --target=riscv32-unknown-elf -march=rv32if -mabi=ilp32f -c` and `ld.lld -N -s -Ttext=0x10000`, of LLVM 14.
const LINKED: [u8; 372] = [
    127, 69, 76, 70, 1, 1, 1, 0, 0, 0, 0, 0, 0, 0, 0, 0, 2, 0, 243, 0, 1, 0, 0, 0, 0, 0, 1, 0, 52,
    0, 0, 0, 212, 0, 0, 0, 2, 0, 0, 0, 52, 0, 32, 0, 2, 0, 40, 0, 4, 0, 3, 0, 1, 0, 0, 0, 116, 0,
    0, 0, 0, 0, 1, 0, 0, 0, 1, 0, 42, 0, 0, 0, 42, 0, 0, 0, 7, 0, 0, 0, 4, 0, 0, 0, 81, 229, 116,
    100, 0, 0, 0, 0, 0, 0, 0, 0, 0, 0, 0, 0, 0, 0, 0, 0, 0, 0, 0, 0, 6, 0, 0, 0, 0, 0, 0, 0, 19, 5,
    16, 0, 183, 5, 1, 0, 147, 133, 69, 2, 19, 6, 96, 0, 147, 8, 192, 0, 115, 0, 0, 0, 19, 5, 112,
    0, 147, 8, 16, 0, 115, 0, 0, 0, 108, 105, 110, 107, 101, 100, 76, 105, 110, 107, 101, 114, 58,
    32, 68, 101, 98, 105, 97, 110, 32, 76, 76, 68, 32, 49, 52, 46, 48, 46, 54, 0, 0, 46, 116, 101,
    120, 116, 0, 46, 99, 111, 109, 109, 101, 110, 116, 0, 46, 115, 104, 115, 116, 114, 116, 97, 98,
    0, 0, 0, 0, 0, 0, 0, 0, 0, 0, 0, 0, 0, 0, 0, 0, 0, 0, 0, 0, 0, 0, 0, 0, 0, 0, 0, 0, 0, 0, 0, 0,
    0, 0, 0, 0, 0, 0, 0, 0, 0, 0, 0, 1, 0, 0, 0, 1, 0, 0, 0, 6, 0, 0, 0, 0, 0, 1, 0, 116, 0, 0, 0,
    42, 0, 0, 0, 0, 0, 0, 0, 0, 0, 0, 0, 4, 0, 0, 0, 0, 0, 0, 0, 7, 0, 0, 0, 1, 0, 0, 0, 48, 0, 0,
    0, 0, 0, 0, 0, 158, 0, 0, 0, 26, 0, 0, 0, 0, 0, 0, 0, 0, 0, 0, 0, 1, 0, 0, 0, 1, 0, 0, 0, 16,
    0, 0, 0, 3, 0, 0, 0, 0, 0, 0, 0, 0, 0, 0, 0, 184, 0, 0, 0, 26, 0, 0, 0, 0, 0, 0, 0, 0, 0, 0, 0,
    1, 0, 0, 0, 0, 0, 0, 0,
];

/// The file of `li a0, 7`, `li a7, 1` and `ecall`, with a second segment that is empty.
const EXIT_7: [u8; 128] = [
    0x7f, 0x45, 0x4c, 0x46, 0x01, 0x01, 0x01, 0x00, 0x00, 0x00, 0x00, 0x00, 0x00, 0x00, 0x00, 0x00,
    0x02, 0x00, 0xf3, 0x00, 0x01, 0x00, 0x00, 0x00, 0x00, 0x00, 0x01, 0x00, 0x34, 0x00, 0x00, 0x00,
    0x00, 0x00, 0x00, 0x00, 0x00, 0x00, 0x00, 0x00, 0x34, 0x00, 0x20, 0x00, 0x02, 0x00, 0x00, 0x00,
    0x00, 0x00, 0x00, 0x00, 0x01, 0x00, 0x00, 0x00, 0x74, 0x00, 0x00, 0x00, 0x00, 0x00, 0x01, 0x00,
    0x00, 0x00, 0x01, 0x00, 0x0c, 0x00, 0x00, 0x00, 0x0c, 0x00, 0x00, 0x00, 0x05, 0x00, 0x00, 0x00,
    0x01, 0x00, 0x00, 0x00, 0x01, 0x00, 0x00, 0x00, 0x80, 0x00, 0x00, 0x00, 0x00, 0x10, 0x01, 0x00,
    0x00, 0x10, 0x01, 0x00, 0x00, 0x00, 0x00, 0x00, 0x00, 0x00, 0x00, 0x00, 0x06, 0x00, 0x00, 0x00,
    0x01, 0x00, 0x00, 0x00, 0x13, 0x05, 0x70, 0x00, 0x93, 0x08, 0x10, 0x00, 0x73, 0x00, 0x00, 0x00,
];

/// The headers of a file whose one segment, at 0x10000, follows them.
const HEADERS: [u8; 84] = [
    0x7f, 0x45, 0x4c, 0x46, 0x01, 0x01, 0x01, 0x00, 0x00, 0x00, 0x00, 0x00, 0x00, 0x00, 0x00, 0x00,
    0x02, 0x00, 0xf3, 0x00, 0x01, 0x00, 0x00, 0x00, 0x00, 0x00, 0x01, 0x00, 0x34, 0x00, 0x00, 0x00,
    0x00, 0x00, 0x00, 0x00, 0x00, 0x00, 0x00, 0x00, 0x34, 0x00, 0x20, 0x00, 0x01, 0x00, 0x00, 0x00,
    0x00, 0x00, 0x00, 0x00, 0x01, 0x00, 0x00, 0x00, 0x54, 0x00, 0x00, 0x00, 0x00, 0x00, 0x01, 0x00,
    0x00, 0x00, 0x01, 0x00, 0x80, 0x00, 0x00, 0x00, 0x80, 0x00, 0x00, 0x00, 0x05, 0x00, 0x00, 0x00,
    0x01, 0x00, 0x00, 0x00,
];

/// `lui rd, page`.
fn lui(rd: u32, page: u32) -> u32 {
    page.wrapping_mul(4096) | rd.wrapping_mul(128) | 0x37
}

/// `addi rd, rs1, immediate`, the immediate in twelve bits.
fn addi(rd: u32, rs1: u32, immediate: u32) -> u32 {
    immediate.wrapping_mul(1_048_576) | rs1.wrapping_mul(32_768) | rd.wrapping_mul(128) | 0x13
}

const ECALL: u32 = 0x73;

const A0: u32 = 10;

const A1: u32 = 11;

const A2: u32 = 12;

const A7: u32 = 17;

/// The file of these instructions, in a segment of 128 bytes.
fn file_of(alloc: Global, words: &[u32]) -> Result<Vec<u8>, AllocError> {
    let mut file = Vec::from_slice(alloc, &HEADERS)?;
    for word in words {
        file.extend_from_slice(&word.to_le_bytes())?;
    }
    for _ in 0..212u32 {
        if file.len() < 212 {
            file.push(0)?;
        }
    }
    Ok(file)
}

/// What a run of the program left.
#[derive(Drop)]
struct Left {
    status: u8,
    output: Vec<u8>,
    notes: Vec<u8>,
}

/// Runs the program with these words over this plan and this input; the calls of plan, input, output and notes with these
/// numbers fail.
fn run_planned(
    alloc: Global,
    words: &[&str],
    plan: &[u8],
    input: &[u8],
    fails: [&[u32]; 4],
) -> Result<Left, AllocError> {
    let mut given = Vec::new(alloc);
    for word in words {
        given.push(String::from_str(alloc, word)?)?;
    }
    let plan = Vec::from_slice(alloc, plan)?;
    let mut plan = MemSource::new(plan, Vec::from_slice(alloc, fails[0])?);
    let input = Vec::from_slice(alloc, input)?;
    let mut input = MemSource::new(input, Vec::from_slice(alloc, fails[1])?);
    let output = MemSink::new(alloc, 65_536, Vec::from_slice(alloc, fails[2])?);
    let notes = MemSink::new(alloc, 4_096, Vec::from_slice(alloc, fails[3])?);
    let (Ok(mut output), Ok(mut notes)) = (output, notes) else {
        return Err(AllocError);
    };
    let Status(status) = keynix(
        alloc,
        &given,
        &mut plan,
        &mut input,
        &mut output,
        &mut notes,
    );
    Ok(Left {
        status,
        output: Vec::from_slice(alloc, output.bytes())?,
        notes: Vec::from_slice(alloc, notes.bytes())?,
    })
}

/// Runs the program with these words over this input; the calls of input, output and notes with these numbers fail.
fn run_failing(
    alloc: Global,
    words: &[&str],
    input: &[u8],
    fails: [&[u32]; 3],
) -> Result<Left, AllocError> {
    run_planned(
        alloc,
        words,
        b"",
        input,
        [&[], fails[0], fails[1], fails[2]],
    )
}

/// Runs the program with these words over this input.
fn run(alloc: Global, words: &[&str], input: &[u8]) -> Result<Left, AllocError> {
    run_failing(alloc, words, input, [&[], &[], &[]])
}

/// Checks the status and the note of `d once` over an input.
fn check_once(
    rt: &(impl Abort + Alloc<A = Global>),
    input: &[u8],
    status: u8,
    note: &str,
) -> Result<Vec<u8>, AllocError> {
    let left = run(rt.alloc(), &["d", "once"], input)?;
    assert_eq!(rt; left.notes.as_slice(), note.as_bytes());
    assert_eq!(rt; left.status, status);
    Ok(left.output)
}

#[test]
fn exit_7_halts_with_7(rt: HostRuntime) -> Result<(), Fail> {
    let output = check_once(&rt, &EXIT_7, 0, "halted 7\n")?;
    assert_eq!(rt; output.len(), 0);
    Ok(())
}

#[test]
fn writes_are_cut_to_a_page_and_give_their_length(rt: HostRuntime) -> Result<(), Fail> {
    // The second write begins at 0x7FFF_0000, the stack's first page, which is zero. Each value is made the count of the
    // write after it: 2 more than 0, and 3 more than what 4,096 is above 4,096.
    let file = file_of(
        rt.alloc(),
        &[
            addi(A0, 0, 1),
            addi(A7, 0, 12),
            ECALL,
            addi(A2, A0, 2),
            addi(A0, 0, 1),
            lui(A1, 0x7FFF0),
            ECALL,
            addi(A0, 0, 1),
            lui(A2, 1),
            addi(A2, A2, 904),
            ECALL,
            addi(A2, A0, 0x800),
            addi(A2, A2, 0x803),
            addi(A0, 0, 1),
            ECALL,
            addi(A7, 0, 1),
            ECALL,
        ],
    )?;
    let output = check_once(&rt, &file, 0, "halted 3\n")?;
    assert_eq!(rt; output.len(), 2 + 4096 + 3);
    assert!(rt; output.iter().all(|byte| *byte == 0));
    Ok(())
}

#[test]
fn a_linked_file_runs(rt: HostRuntime) -> Result<(), Fail> {
    let output = check_once(&rt, &LINKED, 0, "halted 7\n")?;
    assert_eq!(rt; output.as_slice(), b"linked".as_slice());
    Ok(())
}

#[test]
fn a_fault_is_a_signal(rt: HostRuntime) -> Result<(), Fail> {
    // A word that is no instruction, and the end of a segment that fills its page but for nothing.
    let file = file_of(rt.alloc(), &[0xFFFF_FFFF])?;
    check_once(&rt, &file, 0, "halted signal 4\n")?;
    let mut far = file_of(rt.alloc(), &[addi(0, 0, 0)])?;
    if far.len() > 27 {
        far[26] = 2;
    }
    check_once(&rt, &far, 0, "halted signal 11\n")?;
    Ok(())
}

#[test]
fn a_store_over_two_pages_needs_both(rt: HostRuntime) -> Result<(), Fail> {
    // `sw a2, -2(a1)` to 0x1_1FFE, and a write of the eight bytes round the end of the page, in a segment that may be
    // written to and has two pages, or a byte more.
    let mut file = file_of(
        rt.alloc(),
        &[
            lui(A1, 0x12),
            lui(A2, 0x87654),
            addi(A2, A2, 0x321),
            0xFEC5_AF23,
            addi(A0, 0, 1),
            addi(A1, A1, 0xFFC),
            addi(A2, 0, 8),
            addi(A7, 0, 12),
            ECALL,
            addi(A0, 0, 7),
            addi(A7, 0, 1),
            ECALL,
        ],
    )?;
    for (low, note, written) in [
        (0, "halted signal 11\n", b"".as_slice()),
        (1, "halted 7\n", b"\x00\x00\x21\x43\x65\x87\x00\x00"),
    ] {
        if file.len() > 76 {
            file[72] = low;
            file[73] = 0x20;
            file[76] = 7;
        }
        let output = check_once(&rt, &file, 0, note)?;
        assert_eq!(rt; output.as_slice(), written);
    }
    Ok(())
}

#[test]
fn refusals_of_calls_are_negated_errnos(rt: HostRuntime) -> Result<(), Fail> {
    // An unknown call, a closed descriptor and an address that isn't mapped; exit gives the value's low byte.
    for (number, descriptor, page, code) in [
        (99, 1, 0x10, 218),
        (12, 3, 0x10, 247),
        (12, 1, 5, 242),
    ] {
        let file = file_of(
            rt.alloc(),
            &[
                addi(A0, 0, descriptor),
                lui(A1, page),
                addi(A2, 0, 4),
                addi(A7, 0, number),
                ECALL,
                addi(A7, 0, 1),
                ECALL,
            ],
        )?;
        let note = format!(in rt.alloc(); "halted {code}\n")?;
        check_once(&rt, &file, 0, note.as_str())?;
    }
    Ok(())
}

#[test]
fn inputs_that_are_no_program_are_refused(rt: HostRuntime) -> Result<(), Fail> {
    let mut short = Vec::from_slice(rt.alloc(), &[0x7F])?;
    for _ in 0..50u32 {
        short.push(0)?;
    }
    check_once(&rt, &short, 2, "bad input Short 0\n")?;
    short.push(0)?;
    check_once(&rt, &short, 2, "bad input NotElf 0\n")?;
    Ok(())
}

#[test]
fn room_ends_at_the_machines_pages(rt: HostRuntime) -> Result<(), Fail> {
    // 8,310,784 bytes of memory are 2,029 pages, beside 16 of the stack, one of the process, one of the file and one of
    // the root.
    for (low, status, note) in [(0, 0, "halted 7\n"), (1, 2, "bad input NoRoom 0\n")] {
        let mut file = EXIT_7;
        file[72] = low;
        file[73] = 0xD0;
        file[74] = 0x7E;
        check_once(&rt, &file, status, note)?;
    }
    Ok(())
}

#[test]
fn faults_have_their_statuses(rt: HostRuntime) -> Result<(), Fail> {
    let words = ["d", "once"];
    let left = run_failing(rt.alloc(), &words, &LINKED, [&[], &[0], &[]])?;
    assert_eq!(rt; (left.status, left.output.len()), (4, 0));
    assert_eq!(rt; left.notes.as_slice(), b"write fault\n".as_slice());
    for call in [0, 100] {
        let left = run_failing(rt.alloc(), &words, &LINKED, [&[call], &[], &[]])?;
        assert_eq!(rt; (left.status, left.output.len()), (3, 0));
        assert_eq!(rt; left.notes.as_slice(), b"read fault\n".as_slice());
    }
    let left = run_failing(rt.alloc(), &words, &LINKED, [&[], &[], &[0]])?;
    assert_eq!(rt;
        (left.status, left.output.len(), left.notes.len()),
        (4, 6, 0)
    );
    Ok(())
}

#[test]
fn a_read_fault_in_a_source_has_its_status(rt: HostRuntime) -> Result<(), Fail> {
    // The source's first byte, a byte of its second line, and its end.
    let source = b"li a0, 7\n?\n";
    for call in [0, 9, 11] {
        let left = run_failing(rt.alloc(), &["d", "asm"], source, [&[call], &[], &[]])?;
        assert_eq!(rt; (left.status, left.output.len()), (3, 0));
        assert_eq!(rt; left.notes.as_slice(), b"read fault\n".as_slice());
    }
    Ok(())
}

#[test]
fn the_console_is_at_its_end(rt: HostRuntime) -> Result<(), Fail> {
    // Five more than what a read of a byte gives. The file has 212 bytes, so the source's call of number 213, from 0, is
    // that of the read.
    let file = file_of(
        rt.alloc(),
        &[
            addi(A0, 0, 0),
            lui(A1, 0x7FFF0),
            addi(A2, 0, 1),
            addi(A7, 0, 11),
            ECALL,
            addi(A0, A0, 5),
            addi(A7, 0, 1),
            ECALL,
        ],
    )?;
    for (call, status, note) in [
        (212, 3, "read fault\n"),
        (213, 3, "read fault\n"),
        (214, 0, "halted 5\n"),
    ] {
        let left = run_failing(rt.alloc(), &["d", "once"], &file, [&[call], &[], &[]])?;
        assert_eq!(rt; (left.status, left.output.len()), (status, 0));
        assert_eq!(rt; left.notes.as_slice(), note.as_bytes());
    }
    Ok(())
}

#[test]
fn a_child_is_forked_and_waited_for(rt: HostRuntime) -> Result<(), Fail> {
    // fork; the child exits with 3 more than 0, and the parent with the pid that it waited for.
    let file = file_of(
        rt.alloc(),
        &[
            addi(A7, 0, 2),
            ECALL,
            // beqz a0, 20: to the child's part.
            0x0005_0A63,
            addi(A0, 0, 0),
            addi(A7, 0, 4),
            ECALL,
            // j 8: over the child's part.
            0x0080_006F,
            addi(A0, A0, 3),
            addi(A7, 0, 1),
            ECALL,
        ],
    )?;
    let output = check_once(&rt, &file, 0, "halted 2\n")?;
    assert_eq!(rt; output.len(), 0);
    Ok(())
}

#[test]
fn turns_are_counted_by_the_option(rt: HostRuntime) -> Result<(), Fail> {
    for (option, status, note) in [
        ("--turns=0", 9, "turns spent 0\n"),
        ("--turns=8", 9, "turns spent 8\n"),
        ("--turns=9", 0, "halted 7\n"),
        ("--turns=1000000000000", 0, "halted 7\n"),
    ] {
        let left = run(rt.alloc(), &["d", "once", option], &EXIT_7)?;
        assert_eq!(rt; left.notes.as_slice(), note.as_bytes());
        assert_eq!(rt; (left.status, left.output.len()), (status, 0));
    }
    Ok(())
}

#[test]
fn words_outside_the_grammar_are_usage(rt: HostRuntime) -> Result<(), Fail> {
    let outside: [&[&str]; 50] = [
        &[],
        &["d"],
        &["", "once"],
        &["-d", "once"],
        &["d", "twice"],
        &["d", "once", "once"],
        &["d", "--help"],
        &["d", "once", ""],
        &["d", "once", "--turns"],
        &["d", "once", "--turns="],
        &["d", "once", "--turns=07"],
        &["d", "once", "--turns=00"],
        &["d", "once", "--turns=+1"],
        &["d", "once", "--turns=-1"],
        &["d", "once", "--turns=1 "],
        &["d", "once", "--turns=1000000000001"],
        &["d", "once", "--turns=18446744073709551617"],
        &["d", "once", "--turns=1", "--turns=1"],
        &["d", "once", "--pages=0"],
        &["d", "once", "--pages=63"],
        &["d", "once", "--pages=65"],
        &["d", "once", "--pages=16448"],
        &["d", "once", "--pages=064"],
        &["d", "once", "--pages=64", "--turns=9", "--pages=64"],
        &["d", "once", "--quantum=0"],
        &["d", "once", "--quantum=10001"],
        &["d", "once", "--quantum"],
        &["d", "once", "--quantum=1", "--quantum=1"],
        &["d", "once", "--plan"],
        &["d", "once", "--plan="],
        &["d", "once", "--plan=Given"],
        &["d", "once", "--plan=given "],
        &["d", "once", "--plan=given", "--plan=round"],
        &["d", "once", "--every=1"],
        &["d", "asm", "--pages=64"],
        &["-d", "asm"],
        &["d", "asm", ""],
        &["d", "asm", "asm"],
        &["d", "asm", "--turns=5"],
        &["d", "Asm"],
        &["d", "work", ""],
        &["-d", "work"],
        &["d", "work", "--seed="],
        &["d", "work", "--seed=4294967296"],
        &["d", "work", "--seed=1", "--seed=1"],
        &["d", "work", "--lines=0"],
        &["d", "work", "--lines=100001"],
        &["d", "work", "--lines=1", "--seed=1", "--lines=1"],
        &["d", "work", "--turns=5"],
        &["d", "once", "--lines=5"],
    ];
    for words in outside {
        let left = run(rt.alloc(), words, &EXIT_7)?;
        assert_eq!(rt; (left.status, left.output.len()), (1, 0));
        assert_eq!(rt;
            left.notes.as_slice(),
            b"usage: keynix DISK COMMAND [--name=value]\n".as_slice()
        );
    }
    Ok(())
}
