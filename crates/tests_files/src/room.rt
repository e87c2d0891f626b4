//! Writes at the end of what a machine has room for, and at the end of what a file may have.

ghost use Rattle.std.specs.Prelude.{◌≡◌, ℕ, ◌≤◌, ◌%◌, IfOk};
ghost use Rattle.kn_base.specs.Memory.{Memory};
ghost use Rattle.kernel_tables.specs.Kernel.{Kernel, kernel_of};
ghost use Rattle.obj_store.specs.Store.{ram_memory};
ghost use Rattle.file_trees.specs.Good.{FilesGood};

use crate::guarded::{Pages, add_file, length_of, machine_of, pages_of, read, write};
use kn_base::Store;
use obj_store::{NoMemory, RamStore};
use std::alloc::Global;
use std::process::Abort;
use std::test::Fail;
use unix_model::Errno;

/// The first machine of so many pages.
pub fn machine(alloc: Global, pages: u32) -> Result<RamStore, Fail>
    requires least { 64 ≤ pages }
    requires most { pages ≤ 16384 }
    requires multiple { pages % 64 ≡ 0 }
    ensures good { IfOk result (λ store. FilesGood (kernel_of (ram_memory store))) }
{
    match machine_of(alloc, pages) {
        Ok(store) => Ok(store),
        Err(NoMemory) => Err(Fail::from(NoMemory)),
    }
}

/// A new file.
pub fn new_file<T: Store>(rt: &impl Abort, store: &mut T) -> u32
    requires good { FilesGood (kernel_of (T.memory store.old)) }
    ensures good { FilesGood (kernel_of (T.memory store.new)) }
{
    match add_file(store) {
        Some(number) => number,
        None => panic!(rt; "no number"),
    }
}

// A machine in which just 64 pages are left to promise: of 128 the process has one, and a file of 63 pages has its last one.
fn nearly_full(rt: &impl Abort, alloc: Global) -> Result<RamStore, Fail>
    ensures good { IfOk result (λ store. FilesGood (kernel_of (ram_memory store))) }
{
    let mut store = machine(alloc, 128)?;
    let other = new_file(rt, &mut store);
    assert!(rt; write(&mut store, other, 258_047, b"x") == Ok(1));
    assert!(rt;
        pages_of(&store)
            == Pages {
                promised: 64,
                taken: 1
            }
    );
    Ok(store)
}

#[test]
fn a_byte_behind_a_hole_takes_one_page_and_all_promises(rt: HostRuntime) -> Result<(), Fail> {
    let mut store = nearly_full(&rt, rt.alloc())?;
    let file = new_file(&rt, &mut store);
    assert!(rt; write(&mut store, file, 262_144, &[1]) == Err(Errno::Enospc));
    assert!(rt; length_of(&store, file) == Ok(0));
    assert!(rt;
        pages_of(&store)
            == Pages {
                promised: 64,
                taken: 1
            }
    );
    assert!(rt; write(&mut store, file, 262_143, &[1]) == Ok(1));
    assert!(rt; length_of(&store, file) == Ok(262_144));
    assert!(rt;
        pages_of(&store)
            == Pages {
                promised: 128,
                taken: 2
            }
    );
    Ok(())
}

// Each row is a place, how many bytes are written there, and what is answered in a machine that has no page left, at a file of
// 262,144 bytes.
fn refusals() -> [(u32, usize, Result<u32, Errno>); 9] {
    [
        (262_144, 1, Err(Errno::Enospc)),
        (262_143, 2, Err(Errno::Enospc)),
        (0, 0, Ok(0)),
        (4_194_303, 1, Err(Errno::Enospc)),
        (4_194_303, 2, Err(Errno::Enospc)),
        (4_194_304, 1, Err(Errno::Efbig)),
        (4_194_304, 0, Ok(0)),
        (4_294_967_295, 2, Err(Errno::Efbig)),
        (4_294_967_295, 0, Ok(0)),
    ]
}

// Writes so many bytes, at most two, by each row, and finds nothing changed.
fn refuse_all<T: Store>(rt: &impl Abort, store: &mut T, file: u32)
    requires good { FilesGood (kernel_of (T.memory store.old)) }
    ensures good { FilesGood (kernel_of (T.memory store.new)) }
{
    for (at, count, answer) in refusals() {
        let bytes = [7; 2];
        assert!(rt;
            write(store, file, at, &bytes[..count.min(2)]) == answer,
            "at {at}"
        );
        assert!(rt; length_of(store, file) == Ok(262_144));
        assert!(rt;
            pages_of(store)
                == Pages {
                    promised: 128,
                    taken: 2
                }
        );
    }
}

#[test]
fn a_machine_without_room_refuses_what_is_longer_and_leaves_all(
    rt: HostRuntime,
) -> Result<(), Fail> {
    let mut store = nearly_full(&rt, rt.alloc())?;
    let file = new_file(&rt, &mut store);
    assert!(rt; write(&mut store, file, 262_143, &[1]) == Ok(1));
    refuse_all(&rt, &mut store, file);
    let mut last = [9; 3];
    assert!(rt; read(&store, file, 262_142, &mut last) == Ok(2));
    assert!(rt; last == [0, 1, 9]);
    Ok(())
}

#[test]
fn a_write_is_cut_at_the_greatest_length(rt: HostRuntime) -> Result<(), Fail> {
    let mut store = machine(rt.alloc(), 1088)?;
    let file = new_file(&rt, &mut store);
    assert!(rt; write(&mut store, file, 4_194_304, b"a") == Err(Errno::Efbig));
    assert!(rt; length_of(&store, file) == Ok(0));
    assert!(rt; write(&mut store, file, 4_194_302, b"abc") == Ok(2));
    assert!(rt; length_of(&store, file) == Ok(4_194_304));
    assert!(rt;
        pages_of(&store)
            == Pages {
                promised: 1025,
                taken: 1
            }
    );
    assert!(rt; write(&mut store, file, 4_194_303, b"def") == Ok(1));
    let mut last = [9; 4];
    assert!(rt; read(&store, file, 4_194_301, &mut last) == Ok(3));
    assert!(rt; last == [0, b'a', b'd', 9]);
    Ok(())
}
