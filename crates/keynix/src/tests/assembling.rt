//! Whole runs of `asm`.

use super::{EXIT_7, run, run_failing};
use crate::finish::Status;
use crate::top::keynix;
use kn_io::{ByteSource, MemSink, MemSource, WriteSink};
use std::alloc::AllocError;
use std::io::{self, ErrorKind, Write};
use std::test::Fail;

/// The source of `EXIT_7`.
const SOURCE: [u8; 24] = *b"li a0, 7\nli a7, 1\necall\n";

#[test]
fn a_source_becomes_its_file(rt: HostRuntime) -> Result<(), Fail> {
    // With the last line feed, and without it.
    for source in [SOURCE.as_slice(), &SOURCE[..23]] {
        let left = run(rt.alloc(), &["d", "asm"], source)?;
        assert_eq!(rt; (left.status, left.notes.len()), (0, 0));
        assert_eq!(rt; left.output.as_slice(), EXIT_7.as_slice());
    }
    Ok(())
}

#[test]
fn a_file_that_was_made_runs(rt: HostRuntime) -> Result<(), Fail> {
    let made = run(rt.alloc(), &["d", "asm"], &SOURCE)?;
    let left = run(rt.alloc(), &["d", "once"], made.output.as_slice())?;
    assert_eq!(rt; left.notes.as_slice(), b"halted 7\n".as_slice());
    assert_eq!(rt; left.status, 0);
    Ok(())
}

#[test]
fn refused_sources_have_their_kind_and_line(rt: HostRuntime) -> Result<(), Fail> {
    let mut long = Vec::from_slice(rt.alloc(), b"nop\n#")?;
    for _ in 0..1024u32 {
        long.push(b'-')?;
    }
    let sources: [(&[u8], &str); 8] = [
        (b"", "bad input Syntax 1\n"),
        (b"\n\n", "bad input Syntax 3\n"),
        (b"j b\nli a0\n", "bad input Syntax 2\n"),
        (b"j b\n", "bad input UnknownLabel 1\n"),
        (b"a: j a\na: nop", "bad input DoubleLabel 2\n"),
        (b"nop\naddi a0, a0, 2048\n", "bad input OutOfRange 2\n"),
        (long.as_slice(), "bad input TooLong 2\n"),
        (b"\x7fELF", "bad input Syntax 1\n"),
    ];
    for (source, note) in sources {
        let left = run(rt.alloc(), &["d", "asm"], source)?;
        assert_eq!(rt; left.notes.as_slice(), note.as_bytes());
        assert_eq!(rt; (left.status, left.output.len()), (2, 0));
    }
    Ok(())
}

#[test]
fn faults_of_writing_have_their_status(rt: HostRuntime) -> Result<(), Fail> {
    let words = ["d", "asm"];
    let left = run_failing(rt.alloc(), &words, &SOURCE, [&[], &[0], &[]])?;
    assert_eq!(rt; (left.status, left.output.len()), (4, 0));
    assert_eq!(rt; left.notes.as_slice(), b"write fault\n".as_slice());
    let left = run_failing(rt.alloc(), &words, b"?", [&[], &[], &[0]])?;
    assert_eq!(rt;
        (left.status, left.output.len(), left.notes.len()),
        (4, 0, 0)
    );
    Ok(())
}

/// Takes one byte a call, 100 in all.
#[derive(Drop)]
struct Narrow {
    bytes: Vec<u8>,
}

impl Write for Narrow {
    fn write(&mut self, buf: &[u8]) -> io::Result<usize> {
        if self.bytes.len() == 100 {
            return Err(io::Error::from(ErrorKind::BrokenPipe));
        }
        match buf.first() {
            None => Ok(0),
            Some(byte) => match self.bytes.push(*byte) {
                Ok(()) => Ok(1),
                Err(_) => Err(io::Error::from(ErrorKind::OutOfMemory)),
            },
        }
    }

    fn flush(&mut self) -> io::Result<()> {
        Ok(())
    }
}

#[test]
fn a_fault_in_mid_file_leaves_its_front(rt: HostRuntime) -> Result<(), Fail> {
    let mut writer = Narrow {
        bytes: Vec::new(rt.alloc()),
    };
    let mut words = Vec::new(rt.alloc());
    for word in ["d", "asm"] {
        words.push(String::from_str(rt.alloc(), word)?)?;
    }
    let source = Vec::from_slice(rt.alloc(), &SOURCE)?;
    let mut input = MemSource::new(source, Vec::new(rt.alloc()));
    let Ok(mut notes) = MemSink::new(rt.alloc(), 64, Vec::new(rt.alloc())) else {
        return Err(Fail::from(AllocError));
    };
    let mut output = WriteSink::new(&mut writer);
    let mut plan = ByteSource::new(Vec::new(rt.alloc()));
    let Status(status) = keynix(
        rt.alloc(),
        &words,
        &mut plan,
        &mut input,
        &mut output,
        &mut notes,
    );
    assert_eq!(rt; status, 4);
    assert_eq!(rt; notes.bytes(), b"write fault\n".as_slice());
    assert_eq!(rt; writer.bytes.as_slice(), &EXIT_7[..100]);
    Ok(())
}
