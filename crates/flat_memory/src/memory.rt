//! The memory of a process.

ghost use Rattle.std.specs.Prelude.{◌≡◌};
ghost use Rattle.unix_model.specs.Memory.{mapped_pages};
ghost use Rattle.flat_memory.specs.PagesView.{table_of};

use crate::page::Page;
use crate::pages::Pages;
use std::alloc::{AllocError, Global};

/// The pages of a process, and how many they are.
#[derive(Drop)]
pub struct Memory {
    pub pages: Pages,
    pub(crate) mapped: u32,
    ghost counted: { mapped ≡ mapped_pages (table_of pages) },
}

impl Memory {
    ghost use Rattle.std.specs.Prelude.{◌≡◌, ℕ, ◌<◌, ◌≤◌, ◌+◌, ◌/◌, ◌^◌, IfNone, IfOk, IfSome, OnOk, Some, None, is_some, length};
    ghost use Rattle.unix_model.specs.Memory.{mapped_pages, with_bytes, with_break, with_zero_pages, without_pages, zero_page};
    ghost use Rattle.unix_model.specs.Numbers.{pages_of};
    ghost use Rattle.unix_model.specs.Tables.{at, nothing, option_or, with_at};
    ghost use Rattle.flat_memory.specs.MemoryView.{memory_of};
    ghost use Rattle.flat_memory.specs.PageView.{page_of};

    /// Memory with nothing mapped.
    #[tactic(auto, using(unix_model::proofs::CountLaws::mapped_none))]
    pub fn new(alloc: Global) -> Result<Memory, AllocError>
        ensures { IfOk result (λ memory. memory_of memory ≡ nothing) }
    {
        let pages = Pages::new(alloc)?;
        Ok(Memory { pages, mapped: 0 })
    }

    /// How many pages are mapped.
    #[tactic(auto, using(unix_model::proofs::CountLaws::mapped_few))]
    pub fn mapped(&self) -> u32
        ensures mapped { result ≡ mapped_pages (memory_of self.now) }
        ensures few { result ≤ 2 ^ 19 }
    {
        self.mapped
    }

    /// Maps a page at a number.
    #[tactic(auto, using(unix_model::proofs::CountLaws::mapped_but, unix_model::proofs::TableLaws::tables))]
    pub fn map(&mut self, alloc: Global, number: u32, page: Page) -> Result<(), AllocError>
        requires { number < 2 ^ 19 }
        ensures { OnOk result (memory_of self.new ≡ with_at (memory_of self.old) number (Some (page_of page))) }
    {
        let mapped = self.mapped_but(number);
        self.pages.map(alloc, number, page)?;
        self.mapped = mapped + 1;
        Ok(())
    }

    /// Unmaps a page.
    #[tactic(auto, using(unix_model::proofs::CountLaws::mapped))]
    fn unmap(&mut self, number: u32)
        requires { number < 2 ^ 19 }
        ensures { memory_of self.new ≡ with_at (memory_of self.old) number None }
    {
        let mapped = self.mapped_but(number);
        self.pages.unmap(number);
        self.mapped = mapped;
    }

    /// How many pages are mapped beside one.
    #[tactic(auto, using(unix_model::proofs::CountLaws::mapped_but))]
    fn mapped_but(&self, number: u32) -> u32
        requires { number < 2 ^ 19 }
        ensures but { result ≡ mapped_pages (with_at (memory_of self.now) number None) }
        ensures few { result < 2 ^ 19 }
    {
        if self.pages.has(number) {
            self.mapped - 1
        } else {
            self.mapped
        }
    }

    /// Writes bytes from an address on, each where it is mapped.
    #[tactic(auto, using(unix_model::proofs::CountLaws::mapped_writes))]
    pub fn write(&mut self, address: u32, bytes: &[u8])
        requires { length bytes.now ≤ 4096 }
        ensures { memory_of self.new ≡ with_bytes (memory_of self.old) address bytes.now }
    {
        self.pages.write(address, bytes);
    }

    /// Memory with the same pages.
    pub fn copy(&self) -> Result<Memory, AllocError>
        ensures { IfOk result (λ copy. memory_of copy ≡ memory_of self.now) }
    {
        let pages = self.pages.copy()?;
        Ok(Memory {
            pages,
            mapped: self.mapped,
        })
    }

    /// How many pages are mapped once those from one number to another are.
    #[tactic(auto, using(unix_model::proofs::CountLaws::page_ranges, unix_model::proofs::CountLaws::mapped, unix_model::proofs::CountLaws::mapped_few, unix_model::proofs::TableLaws::tables))]
    pub fn mapped_with(&self, from: u32, to: u32) -> u32
        requires { (from ≤ to) × (to ≤ 2 ^ 19) }
        ensures { result ≡ mapped_pages (with_zero_pages (memory_of self.now) from to) }
    {
        let mut mapped = self.mapped;
        for number in from..to {
            if !self.pages.has(number) {
                mapped += 1;
            }
        }
        mapped
    }

    /// Maps each page from one number to another, unless it is mapped.
    #[tactic(auto, using(unix_model::proofs::CountLaws::page_ranges))]
    fn map_zero_pages(&mut self, alloc: Global, from: u32, to: u32) -> Result<(), AllocError>
        requires { (from ≤ to) × (to ≤ 2 ^ 19) }
        ensures { OnOk result (memory_of self.new ≡ with_zero_pages (memory_of self.old) from to) }
    {
        for number in from..to {
            self.map_zero(alloc, number)?;
        }
        Ok(())
    }

    /// The same for one page.
    #[tactic(auto, using(unix_model::proofs::TableLaws::tables))]
    fn map_zero(&mut self, alloc: Global, number: u32) -> Result<(), AllocError>
        requires { number < 2 ^ 19 }
        ensures { OnOk result (memory_of self.new ≡ with_at (memory_of self.old) number (option_or (at (memory_of self.old) number) (Some zero_page))) }
    {
        if !self.pages.has(number) {
            let page = Page::zero(alloc)?;
            self.map(alloc, number, page)?;
        }
        Ok(())
    }

    /// Unmaps the pages from one number to another.
    #[tactic(auto, using(unix_model::proofs::CountLaws::page_ranges))]
    fn unmap_pages(&mut self, from: u32, to: u32)
        requires { (from ≤ to) × (to ≤ 2 ^ 19) }
        ensures { memory_of self.new ≡ without_pages (memory_of self.old) from to }
    {
        for number in from..to {
            self.unmap(number);
        }
    }

    /// Moves the break from one address to another, neither of them past the greatest.
    #[tactic(auto, using(unix_model::proofs::CountLaws::page_ranges))]
    pub fn set_break(
        &mut self,
        alloc: Global,
        start: u32,
        old: u32,
        new: u32,
    ) -> Result<(), AllocError>
        requires { (start ≤ new) × (new ≤ 0x7FFE_0000) × (old ≤ 0x7FFE_0000) }
        ensures { OnOk result (memory_of self.new ≡ with_break (memory_of self.old) start old new) }
    {
        let end = new.div_ceil(4096);
        self.map_zero_pages(alloc, start / 4096, end)?;
        let last = old.div_ceil(4096);
        if end < last {
            self.unmap_pages(end, last);
        }
        Ok(())
    }

    /// How many pages are mapped after that. None where they are more than a limit: then no more pages than the limit
    /// were looked at.
    #[tactic(auto, using(crate::proofs::BreakLaws::breaks))]
    pub fn mapped_with_break(&self, start: u32, old: u32, new: u32, most: u32) -> Option<u32>
        requires { (start ≤ new) × (new ≤ 0x7FFE_0000) × (old ≤ 0x7FFE_0000) }
        ensures mapped { IfSome result (λ mapped. mapped ≡ mapped_pages (with_break (memory_of self.now) start old new)) }
        ensures few { IfSome result (λ mapped. mapped ≤ 2 ^ 19) }
        ensures many { IfNone result (most < mapped_pages (with_break (memory_of self.now) start old new)) }
    {
        if new.div_ceil(4096) - start / 4096 > most {
            return None;
        }
        let mapped = self.count_with_break(start, old, new);
        if mapped > most { None } else { Some(mapped) }
    }

    /// The same without a limit.
    #[tactic(auto, using(unix_model::proofs::CountLaws::page_ranges, unix_model::proofs::CountLaws::mapped_few))]
    fn count_with_break(&self, start: u32, old: u32, new: u32) -> u32
        requires { (start ≤ new) × (new ≤ 0x7FFE_0000) × (old ≤ 0x7FFE_0000) }
        ensures mapped { result ≡ mapped_pages (with_break (memory_of self.now) start old new) }
        ensures few { result ≤ 2 ^ 19 }
    {
        let end = new.div_ceil(4096);
        let mapped = self.mapped_with(start / 4096, end);
        let last = old.div_ceil(4096);
        if end < last {
            self.mapped_without(mapped, start / 4096, end, last)
        } else {
            mapped
        }
    }

    /// How many of so many pages are left once those from one number to another aren't mapped any more, after those up
    /// to it were mapped.
    #[tactic(auto, using(unix_model::proofs::CountLaws::fewer, unix_model::proofs::CountLaws::page_ranges))]
    fn mapped_without(&self, mapped: u32, start: u32, from: u32, to: u32) -> u32
        requires { (start ≤ from) × (from ≤ to) × (to ≤ 2 ^ 19) × (mapped ≡ mapped_pages (with_zero_pages (memory_of self.now) start from)) }
        ensures { result ≡ mapped_pages (without_pages (with_zero_pages (memory_of self.now) start from) from to) }
    {
        let mut left = mapped;
        for number in from..to {
            if self.pages.has(number) {
                left -= 1;
            }
        }
        left
    }
}
