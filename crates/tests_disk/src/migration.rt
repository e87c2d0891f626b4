//! A machine whose blocks are copied home.

use checkpoint::recover;
use disk_layout::{Label, read_label};
use kn_disk::{Fill, MemoryDisk};
use migrate::{DiskFault, some};
use std::alloc::Global;
use std::process::Abort;
use std::test::Fail;

// A disk for 64 bank pages: 184 blocks, the second area from block 187 on, its contents from block
// 189 on, and the home blocks from block 373 on.
const LENGTH: usize = 2_281_472;

const AREA: usize = 187 * 4096;

const CONTENTS: usize = 189 * 4096;

const HOME: usize = 373 * 4096;

// So many zeros.
fn zeros(alloc: Global, length: usize) -> Result<Vec<u8>, Fail> {
    Ok(vec![in alloc; 0; length]?)
}

// Puts bytes where there is room for them.
fn put(image: &mut Vec<u8>, at: usize, bytes: &[u8]) {
    if at <= image.len() && bytes.len() <= image.len() - at {
        image[at..at + bytes.len()].copy_from_slice(bytes);
    }
}

// Generation 1 with the blocks 2, 5 and 183, which are all 7, all 8 and all 9. All other blocks are 0.
fn generation_one(alloc: Global) -> Result<Vec<u8>, Fail> {
    let mut image = zeros(alloc, LENGTH)?;
    for (at, bytes) in [
        (0, b"\x01KEYNIXD\x01\0\0\0\x40\0\0\0\x01\0\0\0".as_slice()),
        (AREA, b"\x01\0\0\0\0\0\0\0\x01\0\0\0\0\0\0\0\x03\0\0\0"),
        (AREA + 4096, b"\x02\0\0\0\x05\0\0\0\xb7\0\0\0"),
        (CONTENTS, [7; 4096].as_slice()),
        (CONTENTS + 4096, [8; 4096].as_slice()),
        (CONTENTS + 8192, [9; 4096].as_slice()),
    ] {
        put(&mut image, at, bytes);
    }
    Ok(image)
}

// In this image all bytes of these home blocks are as they should be.
fn home_is(
    rt: &(impl Abort + AllocGlobal),
    disk: &MemoryDisk,
    fill: Fill,
    blocks: &[(usize, u8)],
) -> Result<(), Fail> {
    let image = disk.image(rt.alloc(), fill).ok().ok_or("no memory")?;
    for (number, byte) in blocks {
        if *number < 184 && image.len() == LENGTH {
            let start = HOME + 4096 * *number;
            let block = &image[start..start + 4096];
            assert!(rt;
                block.iter().all(|b| b == byte),
                "block {number} with {fill:?}"
            );
        } else {
            return Err("no such block".into());
        }
    }
    Ok(())
}

#[test]
fn each_saved_block_is_written_home_once_and_synced(rt: HostRuntime) -> Result<(), Fail> {
    let image = generation_one(rt.alloc())?;
    let length = image.len() as u64;
    // Room for the sync of the opening, for three blocks, and for the last sync.
    let history = 16 + 3 * (16 + 4096) + 16;
    let none = Vec::new(rt.alloc());
    let mut disk = MemoryDisk::new(rt.alloc(), length, history, &image, none, None)
        .ok()
        .ok_or("no memory")?;
    let pages = match read_label(&mut disk) {
        Ok(Label::Names { pages, .. }) => pages,
        _ => return Err("no label".into()),
    };
    let (_store, mut at) = match recover(rt.alloc(), &mut disk) {
        Ok(machine) => machine,
        Err(_) => return Err("no machine".into()),
    };
    assert!(rt; (at.generation, at.entries, at.moved, at.synced) == (1, 3, 0, false));
    match some(&mut disk, pages, &mut at, 2) {
        Ok(()) => {}
        Err(_) => return Err("no migration".into()),
    }
    assert!(rt; (at.generation, at.entries, at.moved, at.synced) == (1, 3, 2, false));
    home_is(&rt, &disk, Fill::New, &[(2, 7), (5, 8), (183, 0)])?;
    home_is(&rt, &disk, Fill::Old, &[(2, 0), (5, 0), (183, 0)])?;
    match some(&mut disk, pages, &mut at, u32::MAX) {
        Ok(()) => {}
        Err(_) => return Err("no end of the migration".into()),
    }
    assert!(rt; (at.generation, at.entries, at.moved, at.synced) == (1, 3, 3, true));
    home_is(&rt, &disk, Fill::Old, &[(1, 0), (2, 7), (5, 8), (183, 9)])?;
    assert!(rt;
        some(&mut disk, pages, &mut at, 1) == Err(DiskFault),
        "the history is full"
    );
    Ok(())
}
