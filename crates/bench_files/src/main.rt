//! Reads and writes pieces of a file, and looks for names, so many times, to be timed from outside: `bench_files read 1000000` reads
//! 4,096 bytes across the end of a page in each round, `bench_files write 1000000` writes as many there, and `bench_files names 1000`
//! looks for each of 1,024 names of a full directory in each round. The answer is a sum of what was read, or how many rounds went well
//! or names were there. Without words it makes a thousand rounds of reading.
#![tactic(auto)]

mod names;
mod rounds;

use std::{env, io};
use tests_files::guarded::machine_of;

// The number of a word, or a thousand.
fn number_of(word: Option<String>) -> u32 {
    word.and_then(|text| text.as_str().parse::<u32>().ok())
        .unwrap_or(1000)
}

// What is done in each round.
#[derive(Clone, Copy)]
enum Work {
    Read,
    Write,
    Names,
}

fn main(rt: HostRuntime) -> io::Result<()> {
    let mut words = env::args(&rt)?;
    let _program = words.next();
    let work = match words.next() {
        Some(word) => {
            if word.as_str() == "write" {
                Work::Write
            } else if word.as_str() == "names" {
                Work::Names
            } else {
                Work::Read
            }
        }
        None => Work::Read,
    };
    let count = number_of(words.next());
    let Ok(mut store) = machine_of(rt.alloc(), 128) else {
        return Err(io::Error::from(io::ErrorKind::OutOfMemory));
    };
    let answer = match work {
        Work::Read => rounds::read(&mut store, count),
        Work::Write => rounds::write(&mut store, count),
        Work::Names => names::find_all(&mut store, count),
    };
    println!(rt; "{answer}")?;
    Ok(())
}
