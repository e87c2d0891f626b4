//! A page of memory.

ghost use Rattle.std.specs.Prelude.{◌≡◌, length};

use std::alloc::{AllocError, Global};

/// A page: 4,096 bytes, and whether the program may write to them.
#[derive(Drop)]
pub struct Page {
    pub writable: bool,
    pub bytes: Vec<u8>,
    ghost full: { length bytes.items ≡ 4096 },
}

impl Clone for Page {
    ghost use Rattle.flat_memory.specs.PageView.{page_of};

    ghost is_clone = { λ page copy. page_of copy ≡ page_of page };

    fn clone(&self) -> Result<Page, AllocError> {
        Ok(Page {
            writable: self.writable,
            bytes: self.bytes.clone()?,
        })
    }
}

impl Page {
    ghost use Rattle.std.specs.Prelude.{◌≡◌, ◌<◌, ◌≤◌, IfOk};
    ghost use Rattle.unix_model.specs.Memory.{page_with_byte, zero_page};
    ghost use Rattle.unix_model.proofs.MemoryLaws.{page_word};
    ghost use Rattle.flat_memory.specs.PageView.{page_of};

    /// A page that was just mapped: writable and all zero.
    #[tactic(auto, unfolding(unix_model::specs::Memory::zero_page))]
    pub fn zero(alloc: Global) -> Result<Page, AllocError>
        ensures { IfOk result (λ page. page_of page ≡ zero_page) }
    {
        Ok(Page {
            writable: true,
            bytes: Vec::from_slice(alloc, &[0; 4096])?,
        })
    }

    /// The word that begins at a place of the page and ends in it.
    pub fn word(&self, place: usize) -> u32
        requires { place ≤ 4092 }
        ensures { result ≡ page_word (page_of self.now) place }
    {
        u32::from_le_bytes([
            self.bytes[place],
            self.bytes[place + 1],
            self.bytes[place + 2],
            self.bytes[place + 3],
        ])
    }

    /// Writes the byte at a place.
    pub fn set(&mut self, place: usize, byte: u8)
        requires { place < 4096 }
        ensures { page_of self.new ≡ page_with_byte place byte (page_of self.old) }
    {
        self.bytes[place] = byte;
    }
}
