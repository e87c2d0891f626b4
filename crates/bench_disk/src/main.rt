//! Puts a machine of zeros on a disk over a file, and saves and reads it, to be timed from outside: `bench_disk format
//! FILE PAGES` formats, `bench_disk recover FILE` reads the machine, and `bench_disk commit FILE BLOCKS` reads it, ends
//! its migration, and saves so many marked blocks. Each prints the generation, the blocks of the machine, and the
//! microseconds of the call itself. Without words it does all three on a small disk in a file that it removes, and prints
//! no time.
#![tactic(auto)]

mod runs;
mod store;

use crate::runs::{commit_blocks, format_pages, recover_machine};
use kn_disk::FileDisk;
use std::time::Instant;
use std::{env, fs, io};

// The file of a run without words.
const SMALL: &str = "bench_disk_file";

fn refused() -> io::Error {
    io::Error::from(io::ErrorKind::InvalidInput)
}

// The number of a word.
fn number_of(word: Option<String>) -> io::Result<u32> {
    match word.and_then(|text| text.as_str().parse::<u32>().ok()) {
        Some(number) => Ok(number),
        None => Err(refused()),
    }
}

// Formats a small disk, saves a hundred blocks, and reads the machine.
fn run_small(rt: &HostRuntime) -> io::Result<()> {
    let _ = fs::remove_file(rt, SMALL);
    let path = String::from_str(rt.alloc(), SMALL)?;
    let mut disk = FileDisk::at(rt.clone()?, path);
    format_pages(rt.alloc(), &mut disk, 64)?;
    commit_blocks(rt, rt.alloc(), &mut disk, 100)?;
    let (generation, blocks) = recover_machine(rt.alloc(), &mut disk)?;
    println!(rt; "generation {generation}, {blocks} blocks")?;
    fs::remove_file(rt, SMALL)
}

// Does one call on a file.
fn run_call(rt: &HostRuntime, call: &str, path: String, count: Option<String>) -> io::Result<()> {
    let mut disk = FileDisk::at(rt.clone()?, path);
    let start = Instant::now(rt)?;
    let (generation, blocks, time) = match call {
        "format" => {
            let blocks = format_pages(rt.alloc(), &mut disk, number_of(count)?)?;
            (0, blocks, start.elapsed(rt)?)
        }
        "recover" => {
            let (generation, blocks) = recover_machine(rt.alloc(), &mut disk)?;
            (generation, blocks, start.elapsed(rt)?)
        }
        "commit" => commit_blocks(rt, rt.alloc(), &mut disk, number_of(count)?)?,
        _ => return Err(refused()),
    };
    let micros = time.as_micros();
    println!(rt; "generation {generation}, {blocks} blocks, {micros} microseconds")?;
    Ok(())
}

fn main(rt: HostRuntime) -> io::Result<()> {
    let mut words = env::args(&rt)?;
    let _program = words.next();
    let Some(call) = words.next() else {
        return run_small(&rt);
    };
    let Some(path) = words.next() else {
        return Err(refused());
    };
    run_call(&rt, call.as_str(), path, words.next())
}
