//! Random calls on three files, beside plain lists of bytes.

ghost use Rattle.std.specs.Prelude.{◌≡◌, ◌<◌, ◌≤◌, ℕ};
ghost use Rattle.kn_base.specs.Memory.{Memory};
ghost use Rattle.kernel_tables.specs.Kernel.{Kernel, kernel_of};
ghost use Rattle.file_trees.specs.Good.{FilesGood};

use crate::guarded::{cut, length_of, pages_of, read, write};
use crate::plain::{self, Plain, next, part, promised_for};
use crate::room::{machine, new_file};
use kn_base::Store;
use std::alloc::{AllocError, Global};
use std::process::Abort;
use std::test::Fail;
use unix_model::Errno;

// What a call may make a file of, beside others that are promised so many pages: the machine has 64, and one is the process's.
fn fits(others: usize, length: usize) -> bool {
    others.saturating_add(promised_for(length)) < 64
}

// So many bytes that go on from a first one.
fn some_bytes(size: usize, first: u8) -> [u8; 8192]
    requires { size ≤ 8192 }
{
    let mut piece = [0; 8192];
    for i in 0..size {
        piece[i] = first.wrapping_add((i % 251) as u8);
    }
    piece
}

// Writes so many bytes to a file, or finds that there is no room.
fn write_one<T: Store>(
    rt: &impl Abort,
    store: &mut T,
    file: u32,
    plain: &mut Plain,
    others: usize,
    random: &mut u32,
) -> Result<(), AllocError>
    requires good { FilesGood (kernel_of (T.memory store.old)) }
    ensures good { FilesGood (kernel_of (T.memory store.new)) }
{
    let at = next(random, 130_000);
    let size = next(random, 8192) as usize + 1;
    let piece = some_bytes(size, next(random, 256) as u8);
    let end = (at as usize + size).max(plain.bytes.len());
    match write(store, file, at, &piece[..size]) {
        Ok(count) => {
            assert!(rt; fits(others, end));
            assert!(rt; count as usize == size);
            plain::put(plain, at, &piece[..size])
        }
        Err(errno) => {
            assert!(rt; !fits(others, end));
            assert!(rt; errno == Errno::Enospc);
            Ok(())
        }
    }
}

// Gives a file another length, or finds that there is no room.
fn cut_one<T: Store>(
    rt: &impl Abort,
    store: &mut T,
    file: u32,
    plain: &mut Plain,
    others: usize,
    length: u32,
) -> Result<(), AllocError>
    requires good { FilesGood (kernel_of (T.memory store.old)) }
    ensures good { FilesGood (kernel_of (T.memory store.new)) }
{
    match cut(store, file, length) {
        Ok(()) => {
            assert!(rt; fits(others, length as usize));
            plain::resize(plain, length as usize)
        }
        Err(errno) => {
            assert!(rt; !fits(others, length as usize));
            assert!(rt; errno == Errno::Enospc);
            Ok(())
        }
    }
}

// Reads so many bytes of a file.
fn read_one<T: Store>(rt: &impl Abort, store: &T, file: u32, plain: &Plain, at: u32, size: usize)
    requires good { FilesGood (kernel_of (T.memory store.now)) }
    requires few { size ≤ 8192 }
{
    let mut into = [7; 8192];
    match read(store, file, at, &mut into[..size]) {
        Ok(count) => assert!(rt; into.get(..count as usize) == part(plain, at, size)),
        Err(_errno) => panic!(rt; "no file"),
    }
}

// One call on a file.
fn act<T: Store>(
    rt: &impl Abort,
    store: &mut T,
    file: u32,
    plain: &mut Plain,
    others: usize,
    random: &mut u32,
) -> Result<(), AllocError>
    requires good { FilesGood (kernel_of (T.memory store.old)) }
    ensures good { FilesGood (kernel_of (T.memory store.new)) }
{
    let choice = next(random, 8);
    if choice < 4 {
        return write_one(rt, store, file, plain, others, random);
    }
    let at = next(random, 140_000);
    if choice == 4 {
        return cut_one(rt, store, file, plain, others, at);
    }
    let size = next(random, 8192) as usize;
    read_one(rt, store, file, plain, at, size);
    Ok(())
}

// As many pages are promised and taken as the plain lists say.
fn look<T: Store>(rt: &impl Abort, store: &T, plains: &[Plain])
    requires good { FilesGood (kernel_of (T.memory store.now)) }
{
    let pages = pages_of(store);
    assert!(rt; pages.promised as usize == plain::all_promised(plains).saturating_add(1));
    assert!(rt; pages.taken == plain::all_taken(plains));
}

// One call on one of three files.
fn step<T: Store>(
    rt: &impl Abort,
    store: &mut T,
    files: &[u32; 3],
    plains: &mut Vec<Plain>,
    random: &mut u32,
) -> Result<(), AllocError>
    requires good { FilesGood (kernel_of (T.memory store.old)) }
    ensures good { FilesGood (kernel_of (T.memory store.new)) }
{
    let which = next(random, 3) as usize;
    let all = plain::all_promised(plains);
    match plains.get_mut(which) {
        Some(plain) => {
            let others = all.saturating_sub(promised_for(plain.bytes.len()));
            act(rt, store, files[which], plain, others, random)
        }
        None => panic!(rt; "no list"),
    }
}

// So many calls, each with a look at the pages.
fn walks<T: Store>(
    rt: &impl Abort,
    store: &mut T,
    files: &[u32; 3],
    plains: &mut Vec<Plain>,
) -> Result<(), AllocError>
    requires good { FilesGood (kernel_of (T.memory store.old)) }
    ensures good { FilesGood (kernel_of (T.memory store.new)) }
{
    let mut random = 1;
    for round in 0..3000 {
        step(rt, store, files, plains, &mut random)?;
        look(rt, store, plains);
    }
    Ok(())
}

// A list for a file without bytes.
fn empty(alloc: Global) -> Plain {
    Plain {
        bytes: Vec::new(alloc),
        taken: [false; 64],
    }
}

// All bytes of a file are those of its list.
fn compare<T: Store>(rt: &impl Abort, store: &T, file: u32, plain: &Plain)
    requires good { FilesGood (kernel_of (T.memory store.now)) }
{
    match length_of(store, file) {
        Ok(length) => assert!(rt; length as usize == plain.bytes.len()),
        Err(_errno) => panic!(rt; "no file"),
    }
    for piece in 0..40 {
        read_one(rt, store, file, plain, 8192 * piece, 8192);
    }
}

#[test]
fn three_files_are_as_plain_lists_after_each_of_3000_calls(rt: HostRuntime) -> Result<(), Fail> {
    let mut store = machine(rt.alloc(), 64)?;
    let files = [
        new_file(&rt, &mut store),
        new_file(&rt, &mut store),
        new_file(&rt, &mut store),
    ];
    let mut plains = vec![in rt.alloc(); empty(rt.alloc()), empty(rt.alloc()), empty(rt.alloc())]?;
    walks(&rt, &mut store, &files, &mut plains)?;
    for which in 0..3 {
        match plains.get(which) {
            Some(plain) => compare(&rt, &store, files[which], plain),
            None => panic!(&rt; "no list"),
        }
    }
    Ok(())
}
