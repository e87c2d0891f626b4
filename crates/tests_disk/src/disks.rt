//! Disks in memory and over files.

use kn_disk::{Disk, Failed, FileDisk, Fill, MemoryDisk};
use std::fs;
use std::fs::Files;
use std::process::Abort;
use std::test::Fail;

// A call that changes a disk.
#[derive(Clone, Copy, Debug)]
enum Change<'a> {
    Length(u64),
    Write(u64, &'a [u8]),
    Sync,
}

// Writes where the bytes are inside. The length is asked first.
fn write<D: Disk>(disk: &mut D, at: u64, from: &[u8]) -> Result<(), Failed> {
    let count = from.len() as u64;
    match disk.length() {
        Ok(length) if count <= length && at <= length - count => disk.write_at(at, from),
        _ => Err(Failed),
    }
}

fn apply<D: Disk>(disk: &mut D, change: Change<'_>) -> Result<(), Failed> {
    match change {
        Change::Length(length) => disk.set_length(length),
        Change::Write(at, from) => write(disk, at, from),
        Change::Sync => disk.sync(),
    }
}

// A disk in memory gives these images, by what stands where a crash may leave any bytes.
fn images_are(
    rt: &(impl Abort + AllocGlobal),
    disk: &MemoryDisk,
    old: &[u8],
    new: &[u8],
    marked: &[u8],
) -> Result<(), Fail> {
    for (fill, bytes) in [
        (Fill::Old, old),
        (Fill::New, new),
        (Fill::Byte(b'*'), marked),
    ] {
        let image = disk.image(rt.alloc(), fill).ok().ok_or("no memory")?;
        assert!(rt; image.as_slice() == bytes, "with {fill:?}");
    }
    Ok(())
}

#[test]
fn a_crash_leaves_what_was_synced_and_any_bytes_where_was_written(
    rt: HostRuntime,
) -> Result<(), Fail> {
    let none = Vec::new(rt.alloc());
    let mut disk = MemoryDisk::new(rt.alloc(), 10, 1000, b"abcdefgh", none, None)
        .ok()
        .ok_or("no memory")?;
    images_are(&rt, &disk, b"abcdefgh", b"abcdefgh", b"abcdefgh")?;
    for (step, old, new, marked) in [
        (
            Change::Write(2, b"XY".as_slice()),
            b"abcdefgh".as_slice(),
            b"abXYefgh".as_slice(),
            b"ab**efgh".as_slice(),
        ),
        (
            Change::Write(5, b"Z"),
            b"abcdefgh",
            b"abXYeZgh",
            b"ab**e*gh",
        ),
        (Change::Sync, b"abXYeZgh", b"abXYeZgh", b"abXYeZgh"),
        (Change::Length(4), b"abXYeZgh", b"abXY", b"abXYeZgh"),
        (Change::Length(6), b"abXYeZgh", b"abXY\0\0", b"abXYeZgh"),
        (
            Change::Write(3, b"12"),
            b"abXYeZgh",
            b"abX12\0",
            b"abX**Zgh",
        ),
        (
            Change::Length(10),
            b"abXYeZgh",
            b"abX12\0\0\0\0\0",
            b"abX**Zgh",
        ),
        (
            Change::Write(7, b"345"),
            b"abXYeZgh",
            b"abX12\0\x00345",
            b"abX**Zg*",
        ),
        (
            Change::Sync,
            b"abX12\0\x00345",
            b"abX12\0\x00345",
            b"abX12\0\x00345",
        ),
    ] {
        assert!(rt; apply(&mut disk, step) == Ok(()), "at {step:?}");
        images_are(&rt, &disk, old, new, marked)?;
    }
    Ok(())
}

#[test]
fn a_disk_in_memory_fails_where_it_is_told_and_where_room_ends(
    rt: HostRuntime,
) -> Result<(), Fail> {
    let fails = vec![in rt.alloc(); 1]?;
    let mut disk = MemoryDisk::new(rt.alloc(), 8, 50, b"wxyz", fails, Some(10))
        .ok()
        .ok_or("no memory")?;
    // Each write is two calls, since it asks the length first.
    for (number, step, answer) in [
        (0, Change::Sync, Ok(())),
        (1, Change::Sync, Err(Failed)),
        (2, Change::Length(9), Err(Failed)),
        (3, Change::Length(8), Ok(())),
        (4, Change::Write(0, b"abc".as_slice()), Err(Failed)),
        (6, Change::Write(0, b"ab"), Ok(())),
        (8, Change::Sync, Err(Failed)),
        (9, Change::Length(1), Err(Failed)),
    ] {
        assert!(rt; apply(&mut disk, step) == answer, "at call {number}");
    }
    assert!(rt; disk.length() == Err(Failed), "it has stopped");
    images_are(&rt, &disk, b"wxyz", b"abyz\0\0\0\0", b"**yz")
}

#[test]
fn a_file_keeps_what_was_written_when_it_is_opened_again(rt: HostRuntime) -> Result<(), Fail> {
    let path = "kn_disk_test_file";
    let _ = fs::remove_file(&rt, path);
    let mut disk = FileDisk::at(rt.clone()?, String::from_str(rt.alloc(), path)?);
    assert!(rt; disk.length() == Ok(0));
    assert!(rt; disk.set_length(6) == Ok(()));
    assert!(rt; disk.write_at(2, b"XY") == Ok(()));
    assert!(rt; disk.sync() == Ok(()));
    drop(disk);
    let mut disk = FileDisk::at(rt.clone()?, String::from_str(rt.alloc(), path)?);
    let mut bytes = [7; 6];
    assert!(rt; disk.read_at(0, &mut bytes) == Ok(()));
    assert!(rt; bytes == *b"\0\0XY\0\0");
    assert!(rt; disk.read_at(1, &mut bytes) == Err(Failed), "past the end");
    assert!(rt; disk.length() == Ok(6));
    assert!(rt; disk.set_length(3) == Ok(()));
    assert!(rt; disk.read_at(0, &mut bytes[..3]) == Ok(()));
    assert!(rt; disk.length() == Ok(3));
    fs::remove_file(&rt, path)?;
    Ok(())
}

// No call of a disk succeeds.
fn all_fail<F: Files + Drop>(rt: &impl Abort, mut disk: FileDisk<F>) {
    assert!(rt; disk.length() == Err(Failed));
    assert!(rt; disk.set_length(6) == Err(Failed));
    assert!(rt; disk.read_at(0, &mut [0; 2]) == Err(Failed));
    assert!(rt; disk.write_at(0, b"XY") == Err(Failed));
    assert!(rt; disk.sync() == Err(Failed));
}

#[test]
fn a_file_that_cannot_be_opened_fails_at_each_call(rt: HostRuntime) -> Result<(), Fail> {
    let path = "kn_disk_test_absent/file";
    all_fail(
        &rt,
        FileDisk::at(rt.clone()?, String::from_str(rt.alloc(), path)?),
    );
    let folder = "kn_disk_test_folder";
    let _ = fs::remove_dir(&rt, folder);
    fs::create_dir(&rt, folder)?;
    all_fail(
        &rt,
        FileDisk::at(rt.clone()?, String::from_str(rt.alloc(), folder)?),
    );
    fs::remove_dir(&rt, folder)?;
    Ok(())
}

#[test]
fn a_full_device_refuses_a_write(rt: HostRuntime) -> Result<(), Fail> {
    if fs::metadata(&rt, "/dev/full").is_ok() {
        let mut disk = FileDisk::at(rt.clone()?, String::from_str(rt.alloc(), "/dev/full")?);
        assert!(rt; disk.write_at(0, b"XY") == Err(Failed));
    }
    Ok(())
}
