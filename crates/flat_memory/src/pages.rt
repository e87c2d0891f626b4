//! The pages of a memory.

ghost use Rattle.std.specs.Prelude.{◌≡◌, length};

use crate::page::Page;
use crate::places::free_places;
use crate::region::Region;
use std::alloc::{AllocError, Global};

/// Pages by their numbers: 512 regions of 1,024 pages each. A region is there once it has had a page.
#[derive(Drop)]
pub struct Pages {
    pub(crate) regions: Vec<Option<Region>>,
    ghost full: { length regions.items ≡ 512 },
}

impl Pages {
    ghost use Rattle.std.specs.Prelude.{◌≡◌, ℕ, ◌<◌, ◌≤◌, ◌+◌, ◌/◌, ◌%◌, ◌^◌, IfOk, OnErr, OnOk, Some, None, is_some, option_map};
    ghost use Rattle.unix_model.specs.Memory.{with_byte};
    ghost use Rattle.unix_model.specs.Tables.{at, nothing, with_at};
    ghost use Rattle.flat_memory.specs.PageView.{page_of};
    ghost use Rattle.flat_memory.specs.PagesView.{table_of};

    /// Pages with nothing mapped.
    #[tactic(auto, using(crate::proofs::PageLaws::regions), unfolding(crate::specs::PagesView::table_of))]
    pub fn new(alloc: Global) -> Result<Pages, AllocError>
        ensures { IfOk result (λ pages. table_of pages ≡ nothing) }
    {
        Ok(Pages {
            regions: free_places(alloc, 512)?,
        })
    }

    /// The page at a number, or None where it isn't mapped.
    #[tactic(auto, using(crate::proofs::PageLaws::regions), unfolding(crate::specs::PagesView::table_of, unix_model::specs::Tables::at))]
    pub fn page(&self, number: u32) -> Option<&Page>
        ensures { option_map (λ page. page_of page.now) result ≡ at (table_of self.now) number }
    {
        if number >= 0x8_0000 {
            return None;
        }
        match &self.regions[(number / 1024) as usize] {
            Some(region) => region.page((number % 1024) as usize),
            None => None,
        }
    }

    /// Whether a page is mapped.
    pub fn has(&self, number: u32) -> bool
        ensures { result ≡ is_some (at (table_of self.now) number) }
    {
        match self.page(number) {
            Some(_) => true,
            None => false,
        }
    }

    /// Maps a page at a number.
    #[tactic(auto, using(crate::proofs::PageLaws::regions))]
    pub fn map(&mut self, alloc: Global, number: u32, page: Page) -> Result<(), AllocError>
        requires { number < 2 ^ 19 }
        ensures ok { OnOk result (table_of self.new ≡ with_at (table_of self.old) number (Some (page_of page))) }
        ensures err { OnErr result (table_of self.new ≡ table_of self.old) }
    {
        let index = (number / 1024) as usize;
        let mut region = match self.regions[index].take() {
            Some(region) => region,
            None => Region::new(alloc)?,
        };
        region.map((number % 1024) as usize, page);
        self.regions[index] = Some(region);
        Ok(())
    }

    /// Unmaps a page.
    #[tactic(auto, using(crate::proofs::PageLaws::regions))]
    pub fn unmap(&mut self, number: u32)
        requires { number < 2 ^ 19 }
        ensures { table_of self.new ≡ with_at (table_of self.old) number None }
    {
        match &mut self.regions[(number / 1024) as usize] {
            Some(region) => region.unmap((number % 1024) as usize),
            None => {}
        }
    }

    /// The same pages.
    pub fn copy(&self) -> Result<Pages, AllocError>
        ensures { IfOk result (λ copy. table_of copy ≡ table_of self.now) }
    {
        let regions = self.regions.clone()?;
        Ok(Pages { regions })
    }

    /// Writes the byte at an address, where it is mapped.
    #[tactic(auto, using(crate::proofs::PageLaws::regions))]
    pub fn set_byte(&mut self, address: u64, byte: u8)
        requires { address < 2 ^ 33 }
        ensures { table_of self.new ≡ with_byte (table_of self.old) address byte }
    {
        let number = (address / 4096) as u32;
        if number >= 0x8_0000 {
            return;
        }
        match &mut self.regions[(number / 1024) as usize] {
            Some(region) => region.set_byte(
                (number % 1024) as usize,
                (address % 4096) as usize,
                byte,
            ),
            None => {}
        }
    }
}
