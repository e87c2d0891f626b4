//! Reads a bundle in memory again and again, or the lines of the same bytes, to be timed from outside:
//! `bench_bundle entries|lines hex|files ROUNDS`. The bundle has one `hex` file of 4,000 lines, or 1,000 files. Prints how many
//! entries or lines were read in a round.
#![tactic(auto)]

mod rounds;

use rounds::{bundle_of_files, bundle_of_hex, entries_of, lines_of};
use std::alloc::Global;
use std::{env, io};

fn out_of_memory() -> io::Error {
    io::Error::from(io::ErrorKind::OutOfMemory)
}

/// Makes so many rounds over a bundle, by its entries or by its lines.
fn run(alloc: Global, bundle: &[u8], is_by_lines: bool, rounds: u32) -> io::Result<u32> {
    let mut read = 0;
    for _ in 0..rounds {
        let answer = if is_by_lines {
            lines_of(alloc, bundle)
        } else {
            entries_of(alloc, bundle)
        };
        read = match answer {
            Some(read) => read,
            None => return Err(out_of_memory()),
        };
    }
    Ok(read)
}

fn main(rt: HostRuntime) -> io::Result<()> {
    let mut words = env::args(&rt)?.skip(1);
    let is_by_lines = match words.next() {
        Some(word) => word.as_str() == "lines",
        None => false,
    };
    let is_of_files = match words.next() {
        Some(word) => word.as_str() == "files",
        None => false,
    };
    let rounds = match words.next() {
        Some(word) => word.as_str().parse::<u32>().unwrap_or(1),
        None => 1,
    };
    let bundle = if is_of_files {
        bundle_of_files(rt.alloc())
    } else {
        bundle_of_hex(rt.alloc())
    };
    let bundle = match bundle {
        Ok(bundle) => bundle,
        Err(_) => return Err(out_of_memory()),
    };
    let read = run(rt.alloc(), bundle.as_slice(), is_by_lines, rounds)?;
    println!(rt; "{read}")?;
    Ok(())
}
