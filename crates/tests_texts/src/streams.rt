//! Code that is generic in the traits, and each type on its way and at a fault.
ghost use Rattle.std.specs.Prelude.{◌≤◌, ◌++◌, ◌∷◌, [], OnOk, OnErr, IfOk, IfSome};
ghost use Rattle.kn_io.specs.Faults.{Rose};
ghost use Rattle.kn_io.specs.Sink.{GrewByPrefix};
ghost use Rattle.kn_io.specs.Source.{Takes};

use kn_io::{
    ByteSource, CountSink, Failed, FileSource, MemSink, MemSource, ReadError, ReadFault,
    ReadSource, Sink, Source, WriteFault, WriteSink, read_up_to,
};
use std::alloc::Global;
use std::fs::{self, Files};
use std::io::{self, ErrorKind, Read, Write};
use std::test::Fail;

fn put_both<K: Sink>(to: &mut K, first: &[u8], second: &[u8]) -> Result<(), WriteFault>
    ensures whole { OnOk result (K.grew to.old (first.now ++ second.now) to.new) }
    ensures part { OnErr result (GrewByPrefix K.grew to.old (first.now ++ second.now) to.new) }
    ensures counted { K.faults to.old ≤ K.faults to.new }
    ensures failed { OnErr result (Rose (K.faults to.old) (K.faults to.new)) }
{
    match to.put(first) {
        Ok(()) => {}
        Err(Failed) => return Err(WriteFault),
    }
    match to.put(second) {
        Ok(()) => Ok(()),
        Err(Failed) => Err(WriteFault),
    }
}

fn put_three<K: Sink>(
    to: &mut K,
    first: &[u8],
    second: &[u8],
    third: &[u8],
) -> Result<(), WriteFault>
    ensures whole { OnOk result (K.grew to.old (first.now ++ second.now ++ third.now) to.new) }
    ensures part { OnErr result (GrewByPrefix K.grew to.old (first.now ++ second.now ++ third.now) to.new) }
    ensures counted { K.faults to.old ≤ K.faults to.new }
    ensures failed { OnErr result (Rose (K.faults to.old) (K.faults to.new)) }
{
    put_both(to, first, second)?;
    match to.put(third) {
        Ok(()) => Ok(()),
        Err(Failed) => Err(WriteFault),
    }
}

fn take_two<S: Source>(from: &mut S) -> Result<Option<(u8, u8)>, ReadFault>
    ensures two { IfOk result (λ pair. IfSome pair (λ pair. Takes (S.left from.old) (pair.0 ∷ pair.1 ∷ []) (S.left from.new))) }
    ensures failed { OnErr result (Rose (S.faults from.old) (S.faults from.new)) }
{
    let Some(first) = next_byte(from)? else {
        return Ok(None);
    };
    let Some(second) = next_byte(from)? else {
        return Ok(None);
    };
    Ok(Some((first, second)))
}

fn next_byte<S: Source>(from: &mut S) -> Result<Option<u8>, ReadFault>
    ensures one { IfOk result (λ byte. IfSome byte (λ byte. Takes (S.left from.old) (byte ∷ []) (S.left from.new))) }
    ensures counted { S.faults from.old ≤ S.faults from.new }
    ensures failed { OnErr result (Rose (S.faults from.old) (S.faults from.new)) }
{
    match from.next() {
        Ok(byte) => Ok(byte),
        Err(Failed) => Err(ReadFault),
    }
}

// The next byte. What is called has no clauses here and below, so that each test is proved quickly.
fn next<S: Source>(from: &mut S) -> Result<Option<u8>, Failed> {
    from.next()
}

fn two<S: Source>(from: &mut S) -> Result<Option<(u8, u8)>, ReadFault> {
    take_two(from)
}

fn put<K: Sink>(to: &mut K, bytes: &[u8]) -> Result<(), Failed> {
    to.put(bytes)
}

fn three<K: Sink>(to: &mut K, first: &[u8], second: &[u8], third: &[u8]) -> Result<(), WriteFault> {
    put_three(to, first, second, third)
}

// A source of bytes.
pub fn byte_source(alloc: Global, bytes: &[u8]) -> Result<ByteSource, Fail> {
    Ok(ByteSource::new(Vec::from_slice(alloc, bytes)?))
}

// A source of bytes that fails at some calls.
pub fn mem_source(alloc: Global, bytes: &[u8], fails: &[u32]) -> Result<MemSource, Fail> {
    let bytes = Vec::from_slice(alloc, bytes)?;
    Ok(MemSource::new(bytes, Vec::from_slice(alloc, fails)?))
}

// A sink of six bytes that fails at some calls.
fn mem_sink(alloc: Global, fails: &[u32]) -> Result<MemSink, Fail> {
    Ok(MemSink::new(alloc, 6, Vec::from_slice(alloc, fails)?)?)
}

pub fn rest_of_bytes(source: &ByteSource) -> &[u8] {
    source.rest()
}

fn rest(source: &MemSource) -> &[u8] {
    source.rest()
}

fn bytes(sink: &MemSink) -> &[u8] {
    sink.bytes()
}

// Whether a source gives this, call by call.
fn gives<S: Source>(from: &mut S, answers: &[Result<Option<u8>, Failed>]) -> bool {
    for answer in answers {
        if next(from) != *answer {
            return false;
        }
    }
    true
}

// Whether a sink takes these pieces, or fails at them.
fn takes<K: Sink>(to: &mut K, pieces: &[(&[u8], Result<(), Failed>)]) -> bool {
    for (piece, answer) in pieces {
        if put(to, piece) != *answer {
            return false;
        }
    }
    true
}

#[test]
fn sources_give_their_bytes_in_order_and_fail_at_the_listed_call(
    rt: HostRuntime,
) -> Result<(), Fail> {
    let mut source = mem_source(rt.alloc(), &[7, 8], &[1, 3])?;
    assert!(rt; gives(&mut source, &[Ok(Some(7)), Err(Failed)]));
    assert!(rt; rest(&source) == [8].as_slice());
    let end = [Ok(Some(8)), Err(Failed), Ok(None), Ok(None)];
    assert!(rt; gives(&mut source, &end));
    let mut source = byte_source(rt.alloc(), &[7, 8, 9])?;
    assert!(rt; two(&mut source) == Ok(Some((7, 8))));
    assert!(rt; rest_of_bytes(&source) == [9].as_slice());
    assert!(rt; two(&mut source) == Ok(None));
    Ok(())
}

#[test]
fn sinks_keep_what_is_put_and_fail_past_their_room_and_at_the_listed_call(
    rt: HostRuntime,
) -> Result<(), Fail> {
    let mut sink = mem_sink(rt.alloc(), &[])?;
    assert!(rt; three(&mut sink, b"ab", b"", b"cd") == Ok(()));
    assert!(rt; takes(&mut sink, &[(b"efg", Err(Failed))]));
    assert!(rt; bytes(&sink) == b"abcd".as_slice());
    assert!(rt; takes(&mut sink, &[(b"ef", Ok(()))]));
    assert!(rt; bytes(&sink) == b"abcdef".as_slice());
    let mut sink = mem_sink(rt.alloc(), &[1])?;
    assert!(rt; three(&mut sink, b"ab", b"cd", b"ef") == Err(WriteFault));
    assert!(rt; bytes(&sink) == b"ab".as_slice());
    assert!(rt; takes(&mut sink, &[(b"gh", Ok(()))]));
    assert!(rt; bytes(&sink) == b"abgh".as_slice());
    Ok(())
}

// What is read of a source of bytes up to a limit, and what is left.
fn read_bytes(alloc: Global, from: &mut ByteSource, most: usize) -> Result<Vec<u8>, ReadError> {
    if most < 100 {
        read_up_to(alloc, from, most)
    } else {
        Err(ReadError::TooLong)
    }
}

// The error of reading two bytes of a source.
fn read_error(alloc: Global, from: &mut MemSource) -> Option<ReadError> {
    read_up_to(alloc, from, 2).err()
}

#[test]
fn a_source_is_read_up_to_the_limit_and_not_past_it(rt: HostRuntime) -> Result<(), Fail> {
    let alloc = rt.alloc();
    let read = read_bytes(alloc, &mut byte_source(alloc, &[7, 8, 9])?, 3)?;
    assert!(rt; read.as_slice() == [7, 8, 9].as_slice());
    let mut long = byte_source(alloc, &[7, 8, 9, 10])?;
    let error = read_bytes(alloc, &mut long, 2).err();
    assert!(rt; error == Some(ReadError::TooLong));
    assert!(rt; rest_of_bytes(&long) == [10].as_slice());
    let mut failing = mem_source(alloc, &[7, 8], &[1])?;
    assert!(rt; read_error(alloc, &mut failing) == Some(ReadError::ReadFault));
    assert!(rt; rest(&failing) == [8].as_slice());
    Ok(())
}

// Gives 7 at every read but one, which fails, and one before that, which is interrupted.
#[derive(Drop)]
struct Unsteady {
    reads: u8,
}

impl Read for Unsteady {
    fn read(&mut self, buf: &mut [u8]) -> io::Result<usize> {
        self.reads = self.reads.saturating_add(1);
        match self.reads {
            2 => Err(io::Error::from(ErrorKind::Interrupted)),
            4 => Err(io::Error::from(ErrorKind::ConnectionReset)),
            _ if buf.is_empty() => Ok(0),
            _ => {
                buf[0] = 7;
                Ok(1)
            }
        }
    }
}

// A source over a reader.
fn source_over<R: Read>(reader: R) -> ReadSource<R> {
    ReadSource::new(reader)
}

#[test]
fn a_reader_is_a_source(rt: HostRuntime) {
    let mut source = source_over(b"ab".as_slice());
    let answers = [Ok(Some(b'a')), Ok(Some(b'b')), Ok(None)];
    assert!(rt; gives(&mut source, &answers));
    // An interrupted read is tried again.
    let mut unsteady = source_over(Unsteady { reads: 0 });
    let answers = [Ok(Some(7)), Ok(Some(7)), Err(Failed), Ok(Some(7))];
    assert!(rt; gives(&mut unsteady, &answers));
}

// Takes one byte a call, three in all.
#[derive(Drop)]
struct Narrow {
    bytes: Vec<u8>,
}

impl Write for Narrow {
    fn write(&mut self, buf: &[u8]) -> io::Result<usize> {
        if self.bytes.len() == 3 {
            return Err(io::Error::from(ErrorKind::BrokenPipe));
        }
        match buf.first() {
            None => Ok(0),
            Some(byte) => match self.bytes.push(*byte) {
                Ok(()) => Ok(1),
                Err(_) => Err(io::Error::from(ErrorKind::OutOfMemory)),
            },
        }
    }

    fn flush(&mut self) -> io::Result<()> {
        Ok(())
    }
}

// A sink over a writer.
fn sink_over<W: Write>(writer: W) -> WriteSink<W> {
    WriteSink::new(writer)
}

fn both<K: Sink>(to: &mut K, first: &[u8], second: &[u8]) -> Result<(), WriteFault> {
    put_both(to, first, second)
}

#[test]
fn a_writer_is_a_sink_and_has_failed_where_it_takes_nothing(rt: HostRuntime) {
    let mut writer = Narrow {
        bytes: Vec::new(rt.alloc()),
    };
    let mut sink = sink_over(&mut writer);
    assert!(rt; both(&mut sink, b"a", b"b") == Ok(()));
    assert!(rt; put(&mut sink, b"cd") == Err(Failed));
    assert!(rt; writer.bytes.as_slice() == b"abc".as_slice());
    let mut room = [0; 3];
    let mut sink = sink_over(room.as_mut_slice());
    let pieces: [(&[u8], Result<(), Failed>); 3] = [
        (b"ab", Ok(())),
        (b"", Ok(())),
        (b"cd", Err(Failed)),
    ];
    assert!(rt; takes(&mut sink, &pieces));
    assert!(rt; room == *b"abc");
}

#[test]
fn bytes_are_counted_and_added_up(rt: HostRuntime) {
    let mut sink = CountSink::new();
    assert!(rt; (sink.count(), sink.sum()) == (0, 0));
    for (piece, count, sum) in [
        (b"".as_slice(), 0, 0),
        (b"012", 3, 147),
        (b"\n", 4, 157),
        (&[255; 4096], 4100, 1_044_637),
    ] {
        assert!(rt; put(&mut sink, piece) == Ok(()));
        assert!(rt; (sink.count(), sink.sum()) == (count, sum));
    }
    // 4,300 pieces more pass 2^32: 157 + 4,301 * 1,044,480 = 4,492,308,637.
    let piece = [255; 4096];
    for _ in 0..4300u32 {
        assert!(rt; put(&mut sink, &piece) == Ok(()));
    }
    assert!(rt; (sink.count(), sink.sum()) == (17_616_900, 197_341_341));
}

fn source_at<F: Files>(files: F, path: String) -> FileSource<F> {
    FileSource::at(files, path)
}

// So many bytes, of which each is one more than the one before, and round.
fn counting_bytes(alloc: Global, length: u32) -> Result<Vec<u8>, Fail> {
    let mut bytes = Vec::new(alloc);
    for number in 0..length {
        bytes.push((number % 251) as u8)?;
    }
    Ok(bytes)
}

#[test]
fn a_file_is_a_source(rt: HostRuntime) -> Result<(), Fail> {
    let path = "kn_io_test_file";
    for length in [0, 1, 4095, 4096, 4097, 8192, 10_000] {
        let bytes = counting_bytes(rt.alloc(), length)?;
        fs::write(&rt, path, bytes.as_slice())?;
        let mut source = source_at(rt.clone()?, String::from_str(rt.alloc(), path)?);
        for byte in &bytes {
            assert!(rt; next(&mut source) == Ok(Some(*byte)));
        }
        assert!(rt; next(&mut source) == Ok(None), "after {length} bytes");
        assert!(rt; next(&mut source) == Ok(None));
    }
    fs::remove_file(&rt, path)?;
    let mut absent = source_at(rt.clone()?, String::from_str(rt.alloc(), path)?);
    assert!(rt; next(&mut absent) == Err(Failed));
    fs::write(&rt, path, b"a")?;
    assert!(rt;
        next(&mut absent) == Ok(Some(b'a')),
        "it is opened where it is there now"
    );
    fs::remove_file(&rt, path)?;
    let mut folder = source_at(rt.clone()?, String::from_str(rt.alloc(), ".")?);
    assert!(rt; next(&mut folder) == Err(Failed));
    Ok(())
}
