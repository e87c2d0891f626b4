//! Reads and writes the registers of a domain so many times, to be timed from outside: `bench_domain read 20000000` reads
//! them in each round, `bench_domain write 20000000` writes them. The answer is a sum of what was read. Without words it
//! makes a thousand rounds of reading.
#![tactic(auto)]

mod rounds;

use kernel_tables::first_bank_page;
use obj_store::RamStore;
use std::{env, io};
use tests_domain::first_domain;

// The number of a word, or a thousand.
fn number_of(word: Option<String>) -> u32 {
    word.and_then(|text| text.as_str().parse::<u32>().ok())
        .unwrap_or(1000)
}

#[tactic(auto, unfolding(kernel_tables::specs::Kernel::first_page))]
fn main(rt: HostRuntime) -> io::Result<()> {
    let mut words = env::args(&rt)?;
    let _program = words.next();
    let writes = words.next().is_some_and(|word| word.as_str() == "write");
    let count = number_of(words.next());
    let Ok(mut store) = RamStore::new(rt.alloc(), first_bank_page(64) + 64, 1552) else {
        return Err(io::Error::from(io::ErrorKind::OutOfMemory));
    };
    let root = first_domain(&mut store);
    let sum = if writes {
        rounds::write(&mut store, root, count)
    } else {
        rounds::read(&store, root, count)
    };
    println!(rt; "{sum}")?;
    Ok(())
}
