//! Lines of the console's input and bytes to its output, with calls that fail.

use console_domain::{ReadFault, WriteFault, read_line, write_bytes};
use kn_io::{MemSink, MemSource};
use std::alloc::Global;
use std::process::Abort;
use std::test::Fail;

// A source of these bytes that fails at some calls.
fn source(alloc: Global, bytes: &[u8], fails: &[u32]) -> Result<MemSource, Fail> {
    let bytes = Vec::from_slice(alloc, bytes)?;
    Ok(MemSource::new(bytes, Vec::from_slice(alloc, fails)?))
}

// The bytes that two lines and an end leave to read, read with so much room, each line behind a bar.
fn lines_with_room(rt: &impl Abort, alloc: Global, room: usize) -> Result<Vec<u8>, Fail> {
    let mut input = source(alloc, b"ab\nc", &[])?;
    let mut told = Vec::new(alloc);
    let mut into = [0; 4096];
    for _ in 0..6 {
        if room <= 4096 {
            match read_line(&mut input, &mut into[..room]) {
                Ok(count) => {
                    if count as usize <= room {
                        told.extend_from_slice(&into[..count as usize])?;
                        told.push(b'|')?;
                    }
                }
                Err(ReadFault) => panic!(rt; "a fault"),
            }
        }
    }
    Ok(told)
}

#[test]
fn a_line_ends_at_its_line_feed_where_the_room_ends_and_with_the_input(
    rt: HostRuntime,
) -> Result<(), Fail> {
    assert!(rt; lines_with_room(&rt, rt.alloc(), 1)?.as_slice() == b"a|b|\n|c|||".as_slice());
    assert!(rt; lines_with_room(&rt, rt.alloc(), 3)?.as_slice() == b"ab\n|c|||||".as_slice());
    assert!(rt; lines_with_room(&rt, rt.alloc(), 4096)?.as_slice() == b"ab\n|c|||||".as_slice());
    Ok(())
}

#[test]
fn a_fault_loses_the_bytes_of_its_line_that_were_taken(rt: HostRuntime) -> Result<(), Fail> {
    let mut input = source(rt.alloc(), b"abc\nd", &[2])?;
    let mut into = [0; 8];
    assert!(rt; read_line(&mut input, &mut into) == Err(ReadFault));
    assert!(rt; into[0] == b'a');
    assert!(rt; into[1] == b'b');
    assert!(rt; into[2] == 0);
    assert!(rt; input.rest() == b"c\nd".as_slice());
    assert!(rt; read_line(&mut input, &mut into) == Ok(2));
    assert!(rt; into[0] == b'c');
    Ok(())
}

#[test]
fn bytes_are_put_at_once_or_not_at_all(rt: HostRuntime) -> Result<(), Fail> {
    let fails = Vec::from_slice(rt.alloc(), &[1])?;
    let mut output = MemSink::new(rt.alloc(), 6, fails)?;
    assert!(rt; write_bytes(&mut output, b"abcd") == Ok(()));
    assert!(rt; write_bytes(&mut output, b"e") == Err(WriteFault));
    assert!(rt; write_bytes(&mut output, b"efg") == Err(WriteFault));
    assert!(rt; write_bytes(&mut output, b"ef") == Ok(()));
    assert!(rt; output.bytes() == b"abcdef".as_slice());
    Ok(())
}
