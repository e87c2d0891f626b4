//! Files that go: what they had is given back.

ghost use Rattle.std.specs.Prelude.{◌≡◌, ℕ};
ghost use Rattle.kn_base.specs.Memory.{Memory};
ghost use Rattle.kernel_tables.specs.Kernel.{Kernel, kernel_of};
ghost use Rattle.file_trees.specs.Good.{FilesGood};

use crate::dropping::drop_one;
use crate::guarded::{Pages, cut, length_of, pages_of, read, write};
use crate::room::{machine, new_file};
use std::test::Fail;
use unix_model::Errno;

#[test]
fn a_file_that_goes_gives_back_its_pages_and_its_promise(rt: HostRuntime) -> Result<(), Fail> {
    let mut store = machine(rt.alloc(), 64)?;
    let stays = new_file(&rt, &mut store);
    let goes = new_file(&rt, &mut store);
    assert!(rt; write(&mut store, stays, 4094, b"abcd") == Ok(4));
    assert!(rt;
        pages_of(&store)
            == Pages {
                promised: 3,
                taken: 2
            }
    );
    assert!(rt; write(&mut store, goes, 0, &[7; 9000]) == Ok(9000));
    assert!(rt; write(&mut store, goes, 81_919, b"z") == Ok(1));
    assert!(rt;
        pages_of(&store)
            == Pages {
                promised: 23,
                taken: 6
            }
    );
    assert!(rt; drop_one(&mut store, goes) == Ok(()));
    assert!(rt;
        pages_of(&store)
            == Pages {
                promised: 3,
                taken: 2
            }
    );
    assert!(rt; length_of(&store, goes) == Err(Errno::Ebadf));
    assert!(rt; drop_one(&mut store, goes) == Err(Errno::Ebadf));
    let mut into = [9; 5];
    assert!(rt; read(&store, stays, 4093, &mut into) == Ok(5));
    assert!(rt; into == *b"\0abcd");
    Ok(())
}

#[test]
fn a_number_that_was_freed_is_that_of_a_file_without_bytes(rt: HostRuntime) -> Result<(), Fail> {
    let mut store = machine(rt.alloc(), 64)?;
    let first = new_file(&rt, &mut store);
    assert!(rt; write(&mut store, first, 0, b"abc") == Ok(3));
    assert!(rt; drop_one(&mut store, first) == Ok(()));
    let second = new_file(&rt, &mut store);
    assert!(rt; second == first);
    assert!(rt; length_of(&store, second) == Ok(0));
    assert!(rt; cut(&mut store, second, 5) == Ok(()));
    let mut into = [9; 6];
    assert!(rt; read(&store, second, 0, &mut into) == Ok(5));
    assert!(rt; into == *b"\0\0\0\0\0\t");
    assert!(rt; drop_one(&mut store, second) == Ok(()));
    assert!(rt;
        pages_of(&store)
            == Pages {
                promised: 1,
                taken: 0
            }
    );
    Ok(())
}
