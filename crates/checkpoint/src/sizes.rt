//! What a store says of its own sizes.
ghost use Rattle.std.specs.Prelude.{◌≡◌, ◌<◌, ◌≤◌, ◌+◌, true, length};
ghost use Rattle.kernel_tables.specs.Kernel.{first_page};
ghost use Rattle.disk_layout.specs.Sizes.{blocks_for};
ghost use Rattle.obj_store.specs.Ram.{Ram};
ghost use Rattle.obj_store.specs.Store.{ram_of};
ghost use Rattle.checkpoint.specs.Sizes.{HasSizes};

use crate::area::block_of;
use disk_layout::{blocks_of_pages, pages_fit, quantum_fits, word_in};
use kernel_tables::first_bank_page;
use kn_base::Store;
use obj_store::RamStore;

// Whether a store has the pages and blocks of a machine with so many bank pages.
#[tactic(auto, using(crate::proofs::SizeRules::counted), unfolding(kernel_tables::specs::Kernel::first_page))]
fn has_blocks(store: &RamStore, pages: u32) -> bool
    requires { pages ≤ 16384 }
    ensures right { result ≡ true → (length (ram_of store.now).blocks ≡ blocks_for pages) × ((ram_of store.now).pages ≡ first_page pages + pages) }
    ensures exact { length (ram_of store.now).blocks ≡ blocks_for pages → (ram_of store.now).pages ≡ first_page pages + pages → result ≡ true }
{
    store.blocks() == blocks_of_pages(pages)
        && store.counts().pages == first_bank_page(pages) + pages
}

/// Whether the numbers that a store says in its page 1 are in range, and the store has their sizes.
pub fn has_sizes(store: &RamStore) -> bool
    ensures sizes { result ≡ true → HasSizes (ram_of store.now) }
    ensures exact { HasSizes (ram_of store.now) → result ≡ true }
{
    if store.blocks() < 2 {
        return false;
    }
    let words = block_of(store, 1);
    let pages = word_in(&words, 0);
    pages_fit(pages) && quantum_fits(word_in(&words, 4)) && has_blocks(store, pages)
}
