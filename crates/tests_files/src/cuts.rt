//! Cuts at the ends of pages, and what is behind them when a file grows again.

ghost use Rattle.std.specs.Prelude.{◌≡◌, ℕ};
ghost use Rattle.kn_base.specs.Memory.{Memory};
ghost use Rattle.kernel_tables.specs.Kernel.{Kernel, kernel_of};
ghost use Rattle.file_trees.specs.Good.{FilesGood};

use crate::guarded::{Pages, cut, length_of, pages_of, read, write};
use crate::room::{machine, new_file};
use kn_base::Store;
use std::process::Abort;
use std::test::Fail;
use unix_model::Errno;

// Lengths around the ends of pages, and how many pages have so many bytes.
fn lengths() -> [(u32, u32); 12] {
    [
        (0, 0),
        (1, 1),
        (2, 1),
        (4095, 1),
        (4096, 1),
        (4097, 2),
        (4098, 2),
        (8191, 2),
        (8192, 2),
        (8193, 3),
        (9000, 3),
        (9001, 3),
    ]
}

// How many bytes of a piece of a file aren't zero, of so many from a place on.
fn count_written<T: Store>(rt: &impl Abort, store: &T, file: u32, at: u32) -> usize
    requires good { FilesGood (kernel_of (T.memory store.now)) }
{
    let mut into = [9; 4096];
    assert!(rt; read(store, file, at, &mut into) == Ok(4096));
    into.iter().filter(|byte| **byte != 0).count()
}

// The first so many of the bytes of a file of 16,384 are written, and all others are zero.
fn look<T: Store>(rt: &impl Abort, store: &T, file: u32, count: u32)
    requires good { FilesGood (kernel_of (T.memory store.now)) }
{
    for page in 0..4 {
        let here = count.saturating_sub(4096 * page).min(4096) as usize;
        assert!(rt;
            count_written(rt, store, file, 4096 * page) == here,
            "{count}"
        );
    }
    let mut byte = [9];
    if count > 0 {
        assert!(rt; read(store, file, count - 1, &mut byte) == Ok(1));
        assert!(rt; byte == [b'x']);
    }
    assert!(rt; read(store, file, count.min(16_383), &mut byte) == Ok(1));
    assert!(rt; byte == [0]);
}

// A file of 9,001 bytes is cut to each length, and grows again: by a cut to a greater length, or by a byte written behind a gap.
fn cut_all<T: Store>(rt: &impl Abort, store: &mut T, file: u32)
    requires good { FilesGood (kernel_of (T.memory store.old)) }
    ensures good { FilesGood (kernel_of (T.memory store.new)) }
{
    for (length, pages) in lengths() {
        assert!(rt; write(store, file, 0, &[b'x'; 9001]) == Ok(9001));
        assert!(rt; cut(store, file, length) == Ok(()));
        assert!(rt; length_of(store, file) == Ok(length));
        let held = Pages {
            promised: pages.wrapping_add(1),
            taken: pages,
        };
        assert!(rt; pages_of(store) == held, "{length}");
        assert!(rt; cut(store, file, 16_384) == Ok(()));
        let grown = Pages {
            promised: 5,
            taken: pages,
        };
        assert!(rt; pages_of(store) == grown, "{length}");
        look(rt, store, file, length);
        assert!(rt; cut(store, file, 0) == Ok(()));
    }
}

#[test]
fn behind_a_cut_a_file_is_zero_when_it_grows_again(rt: HostRuntime) -> Result<(), Fail> {
    let mut store = machine(rt.alloc(), 64)?;
    let file = new_file(&rt, &mut store);
    cut_all(&rt, &mut store, file);
    assert!(rt;
        pages_of(&store)
            == Pages {
                promised: 1,
                taken: 0
            }
    );
    Ok(())
}

#[test]
fn a_byte_behind_a_cut_leaves_zeros_before_it(rt: HostRuntime) -> Result<(), Fail> {
    let mut store = machine(rt.alloc(), 64)?;
    let file = new_file(&rt, &mut store);
    assert!(rt; write(&mut store, file, 0, &[b'x'; 9001]) == Ok(9001));
    assert!(rt; cut(&mut store, file, 4098) == Ok(()));
    assert!(rt; write(&mut store, file, 16_383, b"\0") == Ok(1));
    look(&rt, &store, file, 4098);
    assert!(rt;
        pages_of(&store)
            == Pages {
                promised: 5,
                taken: 3
            }
    );
    Ok(())
}

#[test]
fn a_length_past_the_greatest_or_without_room_is_refused(rt: HostRuntime) -> Result<(), Fail> {
    let mut store = machine(rt.alloc(), 64)?;
    let file = new_file(&rt, &mut store);
    assert!(rt; cut(&mut store, file, 4_194_305) == Err(Errno::Efbig));
    assert!(rt; cut(&mut store, file, 4_294_967_295) == Err(Errno::Efbig));
    assert!(rt; cut(&mut store, file, 4_194_304) == Err(Errno::Enospc));
    assert!(rt; cut(&mut store, file, 258_049) == Err(Errno::Enospc));
    assert!(rt; length_of(&store, file) == Ok(0));
    assert!(rt; cut(&mut store, file, 258_048) == Ok(()));
    assert!(rt;
        pages_of(&store)
            == Pages {
                promised: 64,
                taken: 0
            }
    );
    Ok(())
}
