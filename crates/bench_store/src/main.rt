//! Reads and writes a store in memory so many times, to be timed from outside: `bench_store read 20000000` reads four
//! bytes of a page and one key in each round, `bench_store write 20000000` writes one key besides. The answer is the
//! number of the rounds. Without words it makes a thousand rounds of reading.
#![tactic(auto)]

mod rounds;

use kn_base::Store;
use obj_store::RamStore;
use std::{env, io};

// The number of a word, or a thousand.
fn number_of(word: Option<String>) -> u32 {
    word.and_then(|text| text.as_str().parse::<u32>().ok())
        .unwrap_or(1000)
}

fn main(rt: HostRuntime) -> io::Result<()> {
    let mut words = env::args(&rt)?;
    let _program = words.next();
    let writes = words.next().is_some_and(|word| word.as_str() == "write");
    let count = number_of(words.next());
    let Ok(mut store) = RamStore::new(rt.alloc(), 64, 1024) else {
        return Err(io::Error::from(io::ErrorKind::OutOfMemory));
    };
    let counts = store.counts();
    if counts.pages < 64 || counts.nodes < 64 {
        return Err(io::Error::from(io::ErrorKind::InvalidInput));
    }
    rounds::fill(&mut store);
    let sum = if writes {
        rounds::write(&mut store, count)
    } else {
        rounds::read(&store, count)
    };
    println!(rt; "{sum}")?;
    Ok(())
}
