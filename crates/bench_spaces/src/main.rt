//! Reads and writes words of a space, and shares spaces, so many times, to be timed from outside: `bench_spaces read 1000000`
//! reads a word of an own page in each round, `bench_spaces write 1000000` writes one, `find` and `own` do so by the calls of
//! `seg_tree` alone, and `bench_spaces share 4096 1000` shares a space that has so many pages of its own in each round. The answer is what was read, or how many rounds went well.
//! Without words it reads a thousand words.
#![tactic(auto)]

mod rounds;

use std::{env, io};
use tests_spaces::guarded::{add_space, bank_of};

// The number of a word, or another one where there is none.
fn number_of(word: Option<String>, other: u32) -> u32 {
    word.and_then(|text| text.as_str().parse::<u32>().ok())
        .unwrap_or(other)
}

// What is done in each round.
#[derive(Clone, Copy)]
enum Work {
    Read,
    Write,
    Find,
    Own,
    Share(u32),
}

fn main(rt: HostRuntime) -> io::Result<()> {
    let mut words = env::args(&rt)?;
    let _program = words.next();
    let work = match words.next() {
        Some(word) => {
            if word.as_str() == "share" {
                Work::Share(number_of(words.next(), 16))
            } else if word.as_str() == "write" {
                Work::Write
            } else if word.as_str() == "find" {
                Work::Find
            } else if word.as_str() == "own" {
                Work::Own
            } else {
                Work::Read
            }
        }
        None => Work::Read,
    };
    let count = number_of(words.next(), 1000);
    let Ok(mut store) = bank_of(rt.alloc(), 8192) else {
        return Err(io::Error::from(io::ErrorKind::OutOfMemory));
    };
    let Some(space) = add_space(&mut store) else {
        return Err(io::Error::from(io::ErrorKind::OutOfMemory));
    };
    let answer = match work {
        Work::Read => rounds::read(&mut store, space, count),
        Work::Write => rounds::write(&mut store, space, count),
        Work::Find => rounds::find_words(&mut store, space, count),
        Work::Own => rounds::own_words(&mut store, space, count),
        Work::Share(pages) => rounds::share(&mut store, space, pages, count),
    };
    println!(rt; "{answer}")?;
    Ok(())
}
