//! Rows of inodes and descriptions, byte by byte.

use kernel_tables::{
    Description, Inode, InodeKind, Row, description_bytes, description_entry_in, inode_bytes,
    inode_entry_in,
};
use std::test::Fail;

// The bytes of a directory of two places, whose tree has the root 15 and whose parent is inode 1.
const DIRECTORY: [u8; 32] = [
    2, 0, 0, 0, 64, 0, 0, 0, 1, 0, 0, 0, 3, 0, 0, 0, 15, 0, 0, 0, 1, 0, 0, 0, 0, 0, 0, 0, 0, 0, 0,
    0,
];

// The bytes of a description of inode 5 that is open for reading and writing, appends, and has two descriptors.
const APPENDING: [u8; 16] = [1, 3, 1, 0, 5, 0, 0, 0, 0x34, 0x12, 0, 0, 2, 0, 0, 0];

#[test]
fn a_directory_is_spelled_and_read(rt: HostRuntime) -> Result<(), Fail> {
    let directory = Row::Used(Inode {
        kind: InodeKind::Dir,
        length: 64,
        entries: 1,
        opens: 3,
        root: 15,
        parent: 1,
        start: 0,
    });
    assert!(rt; inode_entry_in(DIRECTORY) == directory);
    assert!(rt; inode_bytes(directory) == DIRECTORY);
    Ok(())
}

#[test]
fn zeros_are_free_and_other_bytes_no_inode(rt: HostRuntime) -> Result<(), Fail> {
    assert!(rt; inode_entry_in([0; 32]) == Row::Free);
    for (place, byte) in [(0, 5), (1, 1), (28, 1), (0, 0)] {
        let mut bytes = DIRECTORY;
        bytes[place] = byte;
        assert!(rt; inode_entry_in(bytes) == Row::Unspelled);
    }
    Ok(())
}

#[test]
fn a_description_is_spelled_and_read(rt: HostRuntime) -> Result<(), Fail> {
    let appending = Row::Used(Description {
        readable: true,
        writable: true,
        append: true,
        inode: 5,
        offset: 0x1234,
        descriptors: 2,
    });
    assert!(rt; description_entry_in(APPENDING) == appending);
    assert!(rt; description_bytes(appending) == APPENDING);
    Ok(())
}

#[test]
fn zeros_are_free_and_other_bytes_no_description(rt: HostRuntime) -> Result<(), Fail> {
    assert!(rt; description_entry_in([0; 16]) == Row::Free);
    for (place, byte) in [(0, 2), (0, 0), (1, 4), (2, 2), (3, 1)] {
        let mut bytes = APPENDING;
        bytes[place] = byte;
        assert!(rt; description_entry_in(bytes) == Row::Unspelled);
    }
    Ok(())
}
