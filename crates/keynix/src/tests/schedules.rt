//! Whole runs of `once` by its options and under given schedules.

use super::{A0, A1, A2, A7, ECALL, EXIT_7, addi, file_of, lui, run, run_failing, run_planned};
use std::alloc::Global;
use std::process::Abort;
use std::test::Fail;

const GIVEN: [&str; 3] = ["d", "once", "--plan=given"];

#[test]
fn exit_7_takes_nine_turns(rt: HostRuntime) -> Result<(), Fail> {
    // Turns of other slots find nothing to do, and are counted.
    let plans: [(&[u8], u8, &str); 9] = [
        (b"", 9, "turns spent 0\n"),
        (b"0 8\n", 9, "turns spent 8\n"),
        (b"0 9\n", 0, "halted 7\n"),
        (b"0 9", 0, "halted 7\n"),
        (b"0 4\n0 4\n", 9, "turns spent 8\n"),
        (b"0 4\n63 99999990\n0 5\n", 0, "halted 7\n"),
        (b"0 8\n1 1000000000\n", 9, "turns spent 100000000\n"),
        (b"5 99999999\n", 9, "turns spent 99999999\n"),
        (b"0 9\n1 1\n", 0, "halted 7\n"),
    ];
    for (plan, status, note) in plans {
        let left = run_planned(rt.alloc(), &GIVEN, plan, &EXIT_7, [&[], &[], &[], &[]])?;
        assert_eq!(rt; left.notes.as_slice(), note.as_bytes());
        assert_eq!(rt; (left.status, left.output.len()), (status, 0));
    }
    Ok(())
}

#[test]
fn a_plan_is_refused_before_the_input_is_looked_at(rt: HostRuntime) -> Result<(), Fail> {
    // The input would fail at its first call, and is no program.
    let plans: [(&[u8], &str); 4] = [
        (b"0 1\n64 1\n", "bad input BadPlan 2\n"),
        (b"0 0", "bad input BadPlan 1\n"),
        (b"\n", "bad input BadPlan 1\n"),
        (b"0 1\n0 1 \n", "bad input BadPlan 2\n"),
    ];
    for (plan, note) in plans {
        let left = run_planned(rt.alloc(), &GIVEN, plan, b"?", [&[], &[0], &[], &[]])?;
        assert_eq!(rt; left.notes.as_slice(), note.as_bytes());
        assert_eq!(rt; (left.status, left.output.len()), (2, 0));
    }
    for call in [0, 3, 4] {
        let left = run_planned(
            rt.alloc(),
            &GIVEN,
            b"0 9\n",
            &EXIT_7,
            [&[call], &[], &[], &[]],
        )?;
        assert_eq!(rt; left.notes.as_slice(), b"read fault\n".as_slice());
        assert_eq!(rt; left.status, 3);
    }
    Ok(())
}

#[test]
fn a_plan_that_is_not_asked_for_is_not_read(rt: HostRuntime) -> Result<(), Fail> {
    let words: [&[&str]; 2] = [&["d", "once"], &["d", "once", "--plan=round"]];
    for words in words {
        let left = run_planned(rt.alloc(), words, b"?", &EXIT_7, [&[0], &[], &[], &[]])?;
        assert_eq!(rt; left.notes.as_slice(), b"halted 7\n".as_slice());
        assert_eq!(rt; left.status, 0);
    }
    Ok(())
}

/// The file of a program that makes a pipe and reads a byte from it with the other end open.
fn reader(alloc: Global) -> Result<Vec<u8>, std::alloc::AllocError> {
    file_of(
        alloc,
        &[
            lui(A1, 0x7FFF0),
            addi(A0, A1, 0),
            addi(A7, 0, 16),
            ECALL,
            addi(A0, 0, 3),
            lui(A1, 0x7FFF1),
            addi(A2, 0, 1),
            addi(A7, 0, 11),
            ECALL,
            addi(A7, 0, 1),
            ECALL,
        ],
    )
}

#[test]
fn a_reader_that_nobody_serves_is_idle_after_its_second_round(rt: HostRuntime) -> Result<(), Fail> {
    let file = reader(rt.alloc())?;
    let rows: [(&[&str], u8, &str); 5] = [
        (&["d", "once"], 10, "idle 12800\n"),
        (&["d", "once", "--quantum=50"], 10, "idle 6400\n"),
        (&["d", "once", "--quantum=10000"], 10, "idle 1280000\n"),
        (&["d", "once", "--turns=12799"], 9, "turns spent 12799\n"),
        (&["d", "once", "--turns=12800"], 10, "idle 12800\n"),
    ];
    for (words, status, note) in rows {
        let left = run(rt.alloc(), words, &file)?;
        assert_eq!(rt; left.notes.as_slice(), note.as_bytes());
        assert_eq!(rt; left.status, status);
    }
    // Under a given schedule nothing is told of idling.
    let left = run_planned(
        rt.alloc(),
        &GIVEN,
        b"0 12800\n1 20000\n",
        &file,
        [&[], &[], &[], &[]],
    )?;
    assert_eq!(rt; left.notes.as_slice(), b"turns spent 32800\n".as_slice());
    Ok(())
}

#[test]
fn the_pages_bound_what_brk_gives(rt: HostRuntime) -> Result<(), Fail> {
    // brk(0x3D000) and brk(0x3D001) of a program whose memory ends below; what it gives is made the exit code: the break's
    // page, or the refusal.
    for (low, code) in [(0, 61), (1, 255)] {
        let file = file_of(
            rt.alloc(),
            &[
                lui(A0, 0x3D),
                addi(A0, A0, low),
                addi(A7, 0, 8),
                ECALL,
                // srai a0, a0, 12.
                0x40C5_5513,
                addi(A7, 0, 1),
                ECALL,
            ],
        )?;
        let left = run(rt.alloc(), &["d", "once", "--pages=64"], &file)?;
        let note = format!(in rt.alloc(); "halted {code}\n")?;
        assert_eq!(rt; left.notes.as_slice(), note.as_bytes());
        assert_eq!(rt; left.status, 0);
    }
    Ok(())
}

#[test]
fn options_come_in_any_order(rt: HostRuntime) -> Result<(), Fail> {
    let rows: [(&[&str], &str); 5] = [
        (
            &["d", "once", "--quantum=1", "--pages=16384", "--turns=600"],
            "halted 7\n",
        ),
        (
            &["d", "once", "--turns=512", "--quantum=1"],
            "turns spent 512\n",
        ),
        (&["d", "once", "--turns=513", "--quantum=1"], "halted 7\n"),
        (
            &["d", "once", "--plan=round", "--turns=8"],
            "turns spent 8\n",
        ),
        (
            &["d", "once", "--quantum=10000", "--pages=64"],
            "halted 7\n",
        ),
    ];
    for (words, note) in rows {
        let left = run(rt.alloc(), words, &EXIT_7)?;
        assert_eq!(rt; left.notes.as_slice(), note.as_bytes());
    }
    Ok(())
}

#[test]
fn a_note_goes_out_in_one_put(rt: HostRuntime) -> Result<(), Fail> {
    // The second put of the notes would fail.
    let rows: [(&[&str], &[u8], u8); 6] = [
        (&["d", "once"], &EXIT_7, 0),
        (&["d"], b"", 1),
        (&["d", "once"], b"?", 2),
        (&["d", "asm"], b"?", 2),
        (&["d", "once", "--turns=8"], &EXIT_7, 9),
        (&["d", "asm"], b"nop\n", 0),
    ];
    for (words, input, status) in rows {
        let left = run_failing(rt.alloc(), words, input, [&[], &[], &[1]])?;
        assert_eq!(rt; left.status, status);
    }
    Ok(())
}
