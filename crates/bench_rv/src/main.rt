//! Executes so many instructions of a fixed mix, to be timed from outside: `bench_rv 100000000` decodes and begins a
//! hundred million. The answer is the last difference that the mix computes. Without a word it executes 10,000.
#![tactic(auto)]

mod steps;

use std::{env, io};

// The number of a word, or ten thousand.
fn number_of(word: Option<String>) -> u32 {
    word.and_then(|text| text.as_str().parse::<u32>().ok())
        .unwrap_or(10_000)
}

fn main(rt: HostRuntime) -> io::Result<()> {
    let mut words = env::args(&rt)?;
    let _program = words.next();
    let count = number_of(words.next());
    println!(rt; "{}", steps::run(count))?;
    Ok(())
}
