//! Reads and writes across the ends of pages.

ghost use Rattle.std.specs.Prelude.{◌≡◌, ℕ};
ghost use Rattle.kn_base.specs.Memory.{Memory};
ghost use Rattle.kernel_tables.specs.Kernel.{Kernel, kernel_of};
ghost use Rattle.file_trees.specs.Good.{FilesGood};

use crate::guarded::{length_of, pages_of, read, write};
use crate::room::{machine, new_file};
use kn_base::Store;
use std::process::Abort;
use std::test::Fail;
use unix_model::Errno;

// What is written one after the other: a place and the bytes, and then the length of the file and how many pages are taken.
fn writes() -> [(u32, &'static [u8], u32, u32); 8] {
    [
        (4090, b"abcdefghijkl", 4102, 2),
        (4095, b"XY", 4102, 2),
        (12_287, b"pq", 12_289, 4),
        (8191, b"-", 12_289, 4),
        (0, b"0", 12_289, 4),
        (20_480, b"", 12_289, 4),
        (20_480, b"z", 20_481, 5),
        (16_382, b"stuv", 20_481, 6),
    ]
}

// Each row is a place, how much room there is, how many bytes are read, and what ten bytes are then that were dots.
fn reads() -> [(u32, usize, u32, [u8; 10]); 14] {
    [
        (0, 10, 10, *b"0\0\0\0\0\0\0\0\0\0"),
        (4088, 10, 10, *b"\0\0abcdeXYh"),
        (4088, 8, 8, *b"\0\0abcdeX.."),
        (4095, 1, 1, *b"X........."),
        (4096, 1, 1, *b"Y........."),
        (4098, 6, 6, *b"ijkl\0\0...."),
        (8189, 6, 6, *b"\0\0-\0\0\0...."),
        (12_284, 10, 10, *b"\0\0\0pq\0\0\0\0\0"),
        (16_380, 8, 8, *b"\0\0stuv\0\0.."),
        (20_477, 10, 4, *b"\0\0\0z......"),
        (20_480, 0, 0, *b".........."),
        (20_481, 10, 0, *b".........."),
        (24_576, 10, 0, *b".........."),
        (4_294_967_295, 10, 0, *b".........."),
    ]
}

// Writes all rows.
fn write_all<T: Store>(rt: &impl Abort, store: &mut T, file: u32)
    requires good { FilesGood (kernel_of (T.memory store.old)) }
    ensures good { FilesGood (kernel_of (T.memory store.new)) }
{
    for (at, bytes, length, taken) in writes() {
        assert!(rt; write(store, file, at, bytes).is_ok());
        assert!(rt; length_of(store, file) == Ok(length), "at {at}");
        assert!(rt; pages_of(store).taken == taken, "at {at}");
    }
}

// Reads all rows.
fn read_all<T: Store>(rt: &impl Abort, store: &T, file: u32)
    requires good { FilesGood (kernel_of (T.memory store.now)) }
{
    for (at, room, count, wanted) in reads() {
        let mut into = [b'.'; 10];
        let answer = read(store, file, at, &mut into[..room.min(10)]);
        assert!(rt; answer == Ok(count), "at {at}");
        assert!(rt; into == wanted, "at {at}");
    }
}

#[test]
fn pieces_across_the_ends_of_pages_are_read_as_they_were_written(
    rt: HostRuntime,
) -> Result<(), Fail> {
    let mut store = machine(rt.alloc(), 64)?;
    let file = new_file(&rt, &mut store);
    write_all(&rt, &mut store, file);
    read_all(&rt, &store, file);
    let other = new_file(&rt, &mut store);
    let mut into = [b'.'; 2];
    assert!(rt; read(&store, other, 0, &mut into) == Ok(0));
    assert!(rt; into == *b"..");
    assert!(rt; write(&mut store, 1000, 0, b"x") == Err(Errno::Ebadf));
    Ok(())
}
