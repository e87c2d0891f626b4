//! The run of a session, and what came of it beside what was expected.

use crate::boot::{Booted, Entry, boot};
use crate::session::{Mark, Session};
use crate::tally::Tally;
use flat_unix::{Flat, FlatFault};
use kn_io::{MemSink, MemSource};
use std::alloc::Global;
use std::io;
use unix_model::{Turned, WaitWord};

/// The rounds after which a session is given up.
const MOST_ROUNDS: u32 = 200_000;

/// What the console may get.
const CONSOLE_BYTES: usize = 1 << 20;

/// How a session ended.
#[derive(Clone, Copy, Debug, PartialEq, Eq)]
enum End {
    Halted(u32),
    /// A whole round in which nothing worked.
    Idle,
    /// The rounds were all made.
    Given,
    NoMemory,
}

/// Makes rounds of one turn a slot until the machine halts or nothing works any more. A turn whose call of the outside
/// failed is made again.
fn run(alloc: Global, flat: &mut Flat, input: &mut MemSource, output: &mut MemSink) -> End {
    for _ in 0..MOST_ROUNDS {
        let mut has_worked = false;
        for slot in 0..64u8 {
            if flat.is_free(slot) {
                flat.free_turns(slot, 1);
                continue;
            }
            match flat.turn(alloc, slot, input, output) {
                Ok(Turned::Worked) => has_worked = true,
                Ok(_) => {}
                Err(FlatFault::ReadFault | FlatFault::WriteFault) => has_worked = true,
                Err(_) => return End::NoMemory,
            }
            if let Some(WaitWord(word)) = flat.halted() {
                return End::Halted(word);
            }
        }
        if !has_worked {
            return End::Idle;
        }
    }
    End::Given
}

/// How an ending is told.
fn told(alloc: Global, end: End) -> io::Result<String> {
    Ok(match end {
        End::Halted(word) => format!(in alloc; "halted {word}")?,
        End::Idle => String::from_str(alloc, "idle")?,
        End::Given => String::from_str(alloc, "given up")?,
        End::NoMemory => String::from_str(alloc, "no memory")?,
    })
}

/// The first byte at which two texts differ.
fn first_difference(first: &[u8], second: &[u8]) -> Option<usize> {
    let common = first.iter().zip(second.iter()).position(|(a, b)| *a != *b);
    match common {
        Some(place) => Some(place),
        None => {
            if first.len() == second.len() {
                None
            } else {
                Some(first.len().min(second.len()))
            }
        }
    }
}

/// The line that expects the byte at a place.
fn line_at(marks: &[Mark], place: usize) -> usize {
    match marks.iter().find(|mark| place < mark.end) {
        Some(mark) => mark.line,
        None => 0,
    }
}

/// Whether the files at the end are as the session says.
fn files_differ(flat: &Flat, holds: &[Entry]) -> bool {
    holds.iter().any(|entry| match (&entry.bytes, flat.file_bytes(entry.path.as_bytes())) {
        (Some(bytes), Some(found)) => bytes.as_slice() != found,
        (None, None) => false,
        _ => true,
    })
}

/// Boots and runs a session, and tells what differs.
pub(crate) fn run_session(rt: &HostRuntime, session: Session, tally: &mut Tally) -> io::Result<()> {
    let alloc = rt.alloc();
    let Session {
        name,
        pages,
        mut entries,
        init_place,
        path,
        program,
        input,
        failing_reads,
        expected,
        marks,
        ending,
        holds,
        left,
    } = session;
    let source = program.source()?;
    let last = Entry::assembled(rt, path, source.as_bytes())?;
    match init_place {
        Some(place) => entries.insert(place.min(entries.len()), last)?,
        None => entries.push(last)?,
    }
    let mut input = MemSource::new(input, failing_reads);
    let mut output = match MemSink::new(alloc, CONSOLE_BYTES, Vec::new(alloc)) {
        Ok(output) => output,
        Err(_) => return Err(io::Error::from(io::ErrorKind::OutOfMemory)),
    };
    let (end, is_kept) = match boot(alloc, pages, entries) {
        Ok(Booted::Started(mut flat)) => {
            let end = run(alloc, &mut flat, &mut input, &mut output);
            (told(alloc, end)?, !files_differ(&flat, holds.as_slice()))
        }
        Ok(Booted::Crowded(path)) => (format!(in alloc; "no room for {path}")?, true),
        Ok(Booted::NotStarted(fault)) => (format!(in alloc; "not started: {fault:?}")?, true),
        Err(_) => (String::from_str(alloc, "no memory")?, true),
    };
    let is_ended = end == ending;
    if !is_ended {
        println!(rt; "{name}: it ended with {end}")?;
    }
    if !is_kept {
        println!(rt; "{name}: its files differ")?;
    }
    let is_left = input.rest() == left.as_slice();
    if !is_left {
        println!(rt;
            "{name}: {} bytes of the input are left",
            input.rest().len()
        )?;
    }
    let difference = first_difference(expected.as_slice(), output.bytes());
    if let Some(place) = difference {
        let line = line_at(marks.as_slice(), place);
        println!(rt;
            "{name}: otherwise at line {line}: {:?}",
            word_at(output.bytes(), place)
        )?;
    }
    tally.count(
        marks.len(),
        is_ended && is_kept && is_left && difference.is_none(),
    );
    Ok(())
}

/// Some bytes from a place on.
fn word_at(bytes: &[u8], place: usize) -> &[u8] {
    let (_, rest) = bytes.split_at(place.min(bytes.len()));
    let (piece, _) = rest.split_at(rest.len().min(8));
    piece
}
