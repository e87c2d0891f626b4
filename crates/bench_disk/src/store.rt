//! The store of a machine of zeros.

use kernel_tables::first_bank_page;
use obj_store::RamStore;
use std::alloc::Global;
use std::io;

// How many turns each process gets in a round.
const TURNS: u8 = 100;

// A store of zeros for so many bank pages. The pages below the bank are few.
fn zeros(alloc: Global, pages: u32) -> io::Result<RamStore> {
    if pages > 16384 {
        return Err(io::Error::from(io::ErrorKind::InvalidInput));
    }
    let first = first_bank_page(pages);
    if first > 1000 {
        return Err(io::Error::from(io::ErrorKind::InvalidInput));
    }
    match RamStore::new(alloc, first + pages, 16 * (pages / 4 + 81)) {
        Ok(store) => Ok(store),
        Err(_) => Err(io::Error::from(io::ErrorKind::OutOfMemory)),
    }
}

/// A store for so many bank pages, which says its sizes.
pub fn new_store(alloc: Global, pages: u32) -> io::Result<RamStore> {
    let mut store = zeros(alloc, pages)?;
    if store.blocks() > 1 {
        let mut block = [0; 4096];
        let [a, b, c, d] = pages.to_le_bytes();
        block[0] = a;
        block[1] = b;
        block[2] = c;
        block[3] = d;
        block[4] = TURNS;
        store.put_block(1, &block);
    }
    Ok(store)
}

/// Marks the last blocks, so many.
pub fn mark_last(store: &mut RamStore, count: u32) {
    let blocks = store.blocks();
    for number in blocks.saturating_sub(count)..blocks {
        if number < store.blocks() {
            store.mark(number);
        }
    }
}
