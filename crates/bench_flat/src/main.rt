//! Runs the program of an ELF file on the plain machine for a number of turns, all given to slot 0, to be timed from outside:
//! `bench_flat FILE TURNS`. Prints how many turns were made, and the wait word where the machine has halted.
#![tactic(auto)]

use flat_unix::{Flat, FlatFault};
use kn_io::{MemSink, MemSource};
use std::alloc::Global;
use std::{env, fs, io};
use unix_model::WaitWord;

fn refused() -> io::Error {
    io::Error::from(io::ErrorKind::InvalidInput)
}

/// The machine whose `/init` is this file.
fn boot(alloc: Global, file: &[u8]) -> Result<Flat, FlatFault> {
    let mut flat = match Flat::new(alloc, 2048, 1) {
        Ok(flat) => flat,
        Err(fault) => return Err(fault),
    };
    if !flat.is_new_path(b"/init") {
        return Err(FlatFault::NoRoom);
    }
    match flat.add_file(alloc, b"/init", file) {
        Ok(()) => {}
        Err(fault) => return Err(fault),
    }
    if flat.file_bytes(b"/init").is_none() {
        return Err(FlatFault::NoRoom);
    }
    match flat.start(alloc) {
        Ok(()) => Ok(flat),
        Err(fault) => Err(fault),
    }
}

/// Gives slot 0 so many turns, or fewer where the machine halts; how many were made.
fn run(alloc: Global, flat: &mut Flat, turns: u64) -> Result<u64, FlatFault> {
    let mut input = MemSource::new(Vec::new(alloc), Vec::new(alloc));
    let mut output = match MemSink::new(alloc, 4096, Vec::new(alloc)) {
        Ok(output) => output,
        Err(_) => return Err(FlatFault::NoMemory),
    };
    for made in 0..turns {
        if flat.halted().is_some() {
            return Ok(made);
        }
        match flat.turn(alloc, 0, &mut input, &mut output) {
            Ok(_) => {}
            Err(fault) => return Err(fault),
        }
    }
    Ok(turns)
}

fn main(rt: HostRuntime) -> io::Result<()> {
    let mut words = env::args(&rt)?.skip(1);
    let (path, turns) = match (words.next(), words.next()) {
        (Some(path), Some(turns)) => (path, turns),
        _ => return Err(refused()),
    };
    let file = fs::read(&rt, path.as_str())?;
    let turns = match turns.as_str().parse::<u64>() {
        Ok(turns) => turns,
        Err(_) => return Err(refused()),
    };
    let mut flat = match boot(rt.alloc(), file.as_slice()) {
        Ok(flat) => flat,
        Err(fault) => {
            println!(rt; "not booted: {fault:?}")?;
            return Ok(());
        }
    };
    match run(rt.alloc(), &mut flat, turns) {
        Ok(made) => match flat.halted() {
            Some(WaitWord(word)) => println!(rt; "{made} turns, halted {word}")?,
            None => println!(rt; "{made} turns")?,
        },
        Err(fault) => println!(rt; "{fault:?}")?,
    }
    Ok(())
}
