//! Whole runs of `work`.

use super::run_planned;
use std::process::Abort;
use std::test::Fail;

#[test]
fn a_load_is_summed_up(rt: HostRuntime) -> Result<(), Fail> {
    // Plan and input would fail at their first call: they aren't called.
    let loads: [(&[&str], &str); 7] = [
        (
            &["d", "work", "--seed=1", "--lines=3"],
            "work seed 1 lines 3 console 12 sum 509\n",
        ),
        (
            &["d", "work", "--lines=3", "--seed=1"],
            "work seed 1 lines 3 console 12 sum 509\n",
        ),
        (
            &["d", "work"],
            "work seed 1 lines 1000 console 4000 sum 167386\n",
        ),
        (
            &["d", "work", "--seed=1"],
            "work seed 1 lines 1000 console 4000 sum 167386\n",
        ),
        (
            &["d", "work", "--seed=0", "--lines=1"],
            "work seed 0 lines 1 console 4 sum 161\n",
        ),
        (
            &["d", "work", "--seed=4294967295", "--lines=1"],
            "work seed 4294967295 lines 1 console 4 sum 177\n",
        ),
        (
            &["d", "work", "--lines=100000"],
            "work seed 1 lines 100000 console 400000 sum 16750061\n",
        ),
    ];
    for (words, summary) in loads {
        let left = run_planned(rt.alloc(), words, b"?", b"?", [&[0], &[0], &[], &[]])?;
        assert_eq!(rt; left.output.as_slice(), summary.as_bytes());
        assert_eq!(rt; (left.status, left.notes.len()), (0, 0));
    }
    Ok(())
}

#[test]
fn each_call_of_a_load_may_fail(rt: HostRuntime) -> Result<(), Fail> {
    // The summary is one put, and there is a note only where that fails.
    let failing: [(&[u32], &[u32], u8, &str); 4] = [
        (&[0], &[], 4, "write fault\n"),
        (&[0], &[0], 4, ""),
        (&[1], &[], 0, ""),
        (&[], &[0], 0, ""),
    ];
    for (output, notes, status, note) in failing {
        let words = ["d", "work", "--lines=2"];
        let left = run_planned(rt.alloc(), &words, b"", b"", [&[], &[], output, notes])?;
        assert_eq!(rt; left.notes.as_slice(), note.as_bytes());
        assert_eq!(rt;
            (left.status, left.output.is_empty()),
            (status, status == 4)
        );
    }
    Ok(())
}
