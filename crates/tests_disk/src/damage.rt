//! What is recovered of bytes, and how many bytes a commit writes.

use crate::machines::{
    COMMIT, FORMAT, START, change, change_first, formatted, generation_of, generations, put, save,
    small_store,
};
use crate::untold::{Fails, Untold};
use checkpoint::{RecoverFault, present, recover};
use kn_disk::{Disk, Fill};
use std::alloc::Global;
use std::process::Abort;
use std::test::Fail;

// Where the headers of the two areas stand.
const FIRST: usize = 4096;

const SECOND: usize = 4096 + 4096 * (1 + 1 + 184);

// The bytes of a disk with generation 1, which has the blocks 40 and 183, in the second area.
fn committed(rt: &(impl Abort + AllocGlobal)) -> Result<Vec<u8>, Fail> {
    let mut store = small_store(rt.alloc())?;
    let first = formatted(rt, &mut store)?;
    let mut disk = Untold::new(rt.alloc(), &first, COMMIT, Fails::Never)?;
    let mut at = START;
    change_first(&mut store);
    assert!(rt; save(rt, &mut disk, &mut store, &mut at) == Ok(()));
    assert!(rt; (at.generation, at.entries, at.moved, at.synced) == (1, 2, 0, false));
    disk.image(rt.alloc(), Fill::New)
}

// What a byte of the label means: the gate, the name, the version, the pages and the quantum. No other
// number of pages has the length of this disk. The quantum is 100, and from 1 to 10,000.
fn label_answer(place: usize, byte: u8) -> Result<u64, RecoverFault> {
    if place == 0 && byte != 1 {
        return Err(RecoverFault::NoMachine);
    }
    let right = match place {
        1..=7 | 12 => false,
        8 => byte == 1,
        16 => byte != 0,
        17 => byte != 255,
        9..=11 | 13..=15 | 18..=19 => byte == 0,
        _ => true,
    };
    if right {
        Ok(1)
    } else {
        Err(RecoverFault::Damaged)
    }
}

// What a byte of the first header means: it is closed, over generation 0, which can't stand there.
fn first_answer(place: usize, byte: u8) -> Result<u64, RecoverFault> {
    if place == 0 && byte == 1 {
        return Err(RecoverFault::Damaged);
    }
    Ok(1)
}

// Generation 1 with another byte. The generations of this area are odd, and less than 2^62.
fn generation_answer(place: usize, byte: u8) -> Result<u64, RecoverFault> {
    let mut bytes = [1, 0, 0, 0, 0, 0, 0, 0];
    if place < 8 {
        bytes[place] = byte;
    }
    let generation = u64::from_le_bytes(bytes);
    if generation % 2 == 1 && generation < 1 << 62 {
        Ok(generation)
    } else {
        Err(RecoverFault::Damaged)
    }
}

// What a byte of the second header means: it is open, with generation 1 and two entries of 184 blocks.
fn second_answer(place: usize, byte: u8) -> Result<u64, RecoverFault> {
    match place {
        0 => Ok(if byte == 1 { 1 } else { 0 }),
        8..=15 => generation_answer(place - 8, byte),
        16 if byte > 184 => Err(RecoverFault::Damaged),
        17..=19 if byte != 0 => Err(RecoverFault::Damaged),
        _ => Ok(1),
    }
}

// What a recovery answers where one byte is another.
fn answered(
    alloc: Global,
    image: &mut Vec<u8>,
    place: usize,
    byte: u8,
) -> Result<Result<u64, RecoverFault>, Fail> {
    if place >= image.len() {
        return Err("no such place".into());
    }
    let before = image[place];
    image[place] = byte;
    let answer = generation_of(alloc, image)?;
    if place < image.len() {
        image[place] = before;
    }
    Ok(answer)
}

#[test]
fn each_byte_of_the_label_and_the_headers_is_read(rt: HostRuntime) -> Result<(), Fail> {
    let mut bytes = committed(&rt)?;
    for place in 0..64 {
        for byte in [0, 1, 255] {
            for (start, answer) in [
                (0, label_answer(place, byte)),
                (FIRST, first_answer(place, byte)),
                (SECOND, second_answer(place, byte)),
            ] {
                let found = answered(rt.alloc(), &mut bytes, start + place, byte)?;
                assert!(rt; found == answer, "byte {place} from {start} is {byte}");
            }
        }
    }
    Ok(())
}

#[test]
fn a_damaged_disk_is_refused_by_its_bytes(rt: HostRuntime) -> Result<(), Fail> {
    let mut bytes = committed(&rt)?;
    for (place, byte, answer) in [
        (SECOND + 15, 0x3F, Ok(0x3F00_0000_0000_0001)),
        (SECOND + 15, 0x40, Err(RecoverFault::Damaged)),
        (SECOND + 15, 0x80, Err(RecoverFault::Damaged)),
        (SECOND + 16, 184, Err(RecoverFault::Damaged)),
        (SECOND + 4096, 184, Err(RecoverFault::Damaged)),
        (SECOND + 4096, 0, Ok(1)),
        (SECOND + 4100, 39, Err(RecoverFault::Damaged)),
    ] {
        let found = answered(rt.alloc(), &mut bytes, place, byte)?;
        assert!(rt; found == answer, "byte {place} is {byte}");
    }
    Ok(())
}

// Bytes cut to a length, or with zeros behind them.
fn of_length(alloc: Global, bytes: &[u8], length: usize) -> Result<Vec<u8>, Fail> {
    let mut image = bytes.to_vec(alloc)?;
    image.resize(length, 0)?;
    Ok(image)
}

#[test]
fn a_disk_of_another_length_is_refused(rt: HostRuntime) -> Result<(), Fail> {
    let bytes = committed(&rt)?;
    for (length, answer) in [
        (0, Err(RecoverFault::NoMachine)),
        (1, Err(RecoverFault::NoMachine)),
        (4095, Err(RecoverFault::NoMachine)),
        (4096, Err(RecoverFault::Damaged)),
        (2_281_471, Err(RecoverFault::Damaged)),
        (2_281_472, Ok(1)),
        (2_281_473, Err(RecoverFault::Damaged)),
        (32_993_280, Err(RecoverFault::Damaged)),
    ] {
        let image = of_length(rt.alloc(), &bytes, length)?;
        assert!(rt;
            generation_of(rt.alloc(), &image)? == answer,
            "{length} bytes"
        );
    }
    Ok(())
}

// Whether a recovery fails where this call of the disk does.
fn recovery_fails(
    rt: &(impl Abort + AllocGlobal),
    bytes: &[u8],
    number: u32,
) -> Result<bool, Fail> {
    let mut disk = Untold::new(rt.alloc(), bytes, 16, Fails::Once(number))?;
    match recover(rt.alloc(), &mut disk) {
        Ok(_machine) => Ok(false),
        Err(fault) => {
            assert!(rt; fault == RecoverFault::DiskFault, "call {number}");
            Ok(true)
        }
    }
}

#[test]
fn a_recovery_of_which_one_call_fails_is_a_fault(rt: HostRuntime) -> Result<(), Fail> {
    let bytes = committed(&rt)?;
    for number in 0..1000u32 {
        if !recovery_fails(&rt, &bytes, number)? {
            assert!(rt; number > 184, "each block is read");
            return Ok(());
        }
    }
    Err("a thousand calls are not enough".into())
}

#[test]
fn a_formatted_disk_has_its_length_and_gives_its_blocks_back(rt: HostRuntime) -> Result<(), Fail> {
    let mut store = small_store(rt.alloc())?;
    let mut disk = Untold::new(rt.alloc(), b"abc", FORMAT, Fails::Never)?;
    assert!(rt; present(&mut disk) == Ok(false));
    assert!(rt; put(&rt, &mut disk, &mut store) == Ok(()));
    assert!(rt; disk.length() == Ok(2_281_472));
    assert!(rt; present(&mut disk) == Ok(true));
    let image = disk.image(rt.alloc(), Fill::Byte(255))?;
    assert!(rt; image.len() == 2_281_472);
    assert!(rt; generations(rt.alloc(), &image)? == 1);
    Ok(())
}

// How many bytes a commit of so many blocks writes.
fn written(rt: &(impl Abort + AllocGlobal), first: &[u8], blocks: u32) -> Result<u64, Fail> {
    let mut store = small_store(rt.alloc())?;
    store.clean();
    for number in 0..blocks {
        change(&mut store, number, 100, 9);
    }
    let mut disk = Untold::new(rt.alloc(), first, 1_000_000, Fails::Never)?;
    let mut at = START;
    assert!(rt; save(rt, &mut disk, &mut store, &mut at) == Ok(()));
    assert!(rt; at.entries == blocks);
    assert!(rt; disk.read == 1, "the gate of its area alone");
    Ok(disk.written)
}

#[test]
fn a_commit_writes_at_most_a_tenth_more_than_its_blocks(rt: HostRuntime) -> Result<(), Fail> {
    let first = formatted(&rt, &mut small_store(rt.alloc())?)?;
    for blocks in [64, 65, 100, 184u32] {
        let bytes = written(&rt, &first, blocks)?;
        let dirty = 4096 * blocks as u64;
        assert!(rt;
            dirty <= bytes && bytes <= dirty + dirty / 10,
            "{blocks} blocks: {bytes}"
        );
    }
    Ok(())
}
