//! Pages in regions of 1,024.

ghost use Rattle.std.specs.Prelude.{◌≡◌, length};

use crate::page::Page;
use crate::places::free_places;
use std::alloc::{AllocError, Global};

/// A region: 1,024 pages that follow one another, each mapped or not.
#[derive(Drop)]
pub struct Region {
    pub(crate) pages: Vec<Option<Page>>,
    ghost full: { length pages.items ≡ 1024 },
}

impl Clone for Region {
    ghost use Rattle.std.specs.Prelude.{◌≡◌};
    ghost use Rattle.flat_memory.specs.RegionView.{region_of};

    ghost is_clone = { λ region copy. region_of copy ≡ region_of region };

    fn clone(&self) -> Result<Region, AllocError> {
        Ok(Region {
            pages: self.pages.clone()?,
        })
    }
}

impl Region {
    ghost use Rattle.std.specs.Prelude.{◌≡◌, ◌<◌, ◌≤◌, IfOk, None, Some, option_map};
    ghost use Rattle.unix_model.specs.Memory.{Page as ModelPage, page_with_byte};
    ghost use Rattle.unix_model.specs.Tables.{at, with_at, nothing};
    ghost use Rattle.flat_memory.specs.PageView.{page_of};
    ghost use Rattle.flat_memory.specs.RegionView.{region_of};

    /// A region with nothing mapped.
    #[tactic(auto, using(crate::proofs::PlaceLaws::tables), unfolding(crate::specs::RegionView::region_of))]
    pub fn new(alloc: Global) -> Result<Region, AllocError>
        ensures { IfOk result (λ region. region_of region ≡ nothing) }
    {
        Ok(Region {
            pages: free_places(alloc, 1024)?,
        })
    }

    /// The page at a place.
    #[tactic(auto, unfolding(crate::specs::RegionView::region_of, unix_model::specs::Tables::at))]
    pub fn page(&self, place: usize) -> Option<&Page>
        requires { place < 1024 }
        ensures { option_map (λ page. page_of page.now) result ≡ at (region_of self.now) place }
    {
        self.pages[place].as_ref()
    }

    /// Maps a page at a place.
    #[tactic(auto, using(crate::proofs::PlaceLaws::tables), unfolding(crate::specs::RegionView::region_of))]
    pub fn map(&mut self, place: usize, page: Page)
        requires { place < 1024 }
        ensures { region_of self.new ≡ with_at (region_of self.old) place (Some (page_of page)) }
    {
        self.pages[place] = Some(page);
    }

    /// Unmaps the page at a place.
    #[tactic(auto, using(crate::proofs::PlaceLaws::tables), unfolding(crate::specs::RegionView::region_of))]
    pub fn unmap(&mut self, place: usize)
        requires { place < 1024 }
        ensures { region_of self.new ≡ with_at (region_of self.old) place None }
    {
        self.pages[place] = None;
    }

    /// Writes a byte of the page at a place, where it is mapped.
    #[tactic(auto, using(crate::proofs::PlaceLaws::tables), unfolding(crate::specs::RegionView::region_of, unix_model::specs::Tables::at))]
    pub fn set_byte(&mut self, place: usize, at_byte: usize, byte: u8)
        requires place { place < 1024 }
        requires inside { at_byte < 4096 }
        ensures { region_of self.new ≡ with_at (region_of self.old) place (option_map (page_with_byte at_byte byte) (at (region_of self.old) place)) }
    {
        match &mut self.pages[place] {
            Some(page) => page.set(at_byte, byte),
            None => {}
        }
    }
}
