//! Bytes, words and ranges of a memory.

ghost use Rattle.std.specs.Prelude.{◌≡◌, ℕ, ◌<◌, ◌≤◌, ◌+◌, ◌%◌, ◌^◌, IfOk, IfSome, length, option_map, vec_len};
ghost use Rattle.unix_model.specs.Memory.{byte_at, bytes_at, word_at, is_writable, all_writable, with_bytes};
ghost use Rattle.unix_model.specs.Numbers.{word_of_bytes};
ghost use Rattle.flat_memory.specs.PagesView.{table_of};

use crate::pages::Pages;
use std::alloc::{AllocError, Global};

impl Pages {
    /// The byte at an address, or None where it isn't mapped.
    #[tactic(auto, unfolding(unix_model::specs::Memory::byte_at))]
    pub fn byte(&self, address: u64) -> Option<u8>
        requires { address < 2 ^ 33 }
        ensures { result ≡ byte_at (table_of self.now) address }
    {
        match self.page((address / 4096) as u32) {
            Some(page) => Some(page.bytes[(address % 4096) as usize]),
            None => None,
        }
    }

    /// The word at an address, or None where one of its bytes isn't mapped.
    pub fn word(&self, address: u32) -> Option<u32>
        ensures { result ≡ word_at (table_of self.now) address }
    {
        let place = (address % 4096) as usize;
        if place <= 4092 {
            self.word_in_page(address)
        } else {
            self.word_by_bytes(u64::from(address))
        }
    }

    /// A word that lies in one page.
    #[tactic(auto, using(unix_model::proofs::MemoryLaws::words))]
    fn word_in_page(&self, address: u32) -> Option<u32>
        requires { address % 4096 ≤ 4092 }
        ensures { result ≡ word_at (table_of self.now) address }
    {
        match self.page(address / 4096) {
            Some(page) => Some(page.word((address % 4096) as usize)),
            None => None,
        }
    }

    /// A word, byte by byte.
    #[tactic(auto, using(unix_model::proofs::MemoryLaws::words))]
    fn word_by_bytes(&self, address: u64) -> Option<u32>
        requires { address < 2 ^ 32 }
        ensures { result ≡ word_at (table_of self.now) address }
    {
        let first = self.byte(address)?;
        let second = self.byte(address + 1)?;
        let third = self.byte(address + 2)?;
        let fourth = self.byte(address + 3)?;
        Some(u32::from_le_bytes([first, second, third, fourth]))
    }

    /// The bytes of a range, or None where one of them isn't mapped. A range doesn't wrap.
    #[tactic(auto, using(unix_model::proofs::MemoryLaws::bytes))]
    pub fn bytes(
        &self,
        alloc: Global,
        address: u32,
        count: u32,
    ) -> Result<Option<Vec<u8>>, AllocError>
        requires { count ≤ 4096 }
        ensures found { IfOk result (λ found. option_map (λ bytes. bytes.items) found ≡ bytes_at (table_of self.now) address count) }
        ensures len { IfOk result (λ found. IfSome found (λ bytes. vec_len bytes ≡ count)) }
    {
        let mut bytes = Vec::new(alloc);
        for i in 0..count {
            match self.byte(u64::from(address) + u64::from(i)) {
                Some(byte) => bytes.push(byte)?,
                None => return Ok(None),
            }
        }
        Ok(Some(bytes))
    }

    /// The number that two bytes spell, the lowest first, or None where one of them isn't mapped.
    #[tactic(auto, using(unix_model::proofs::MemoryLaws::numbers))]
    pub fn half(&self, address: u32) -> Option<u16>
        ensures { result ≡ option_map word_of_bytes (bytes_at (table_of self.now) address 2) }
    {
        let first = self.byte(u64::from(address))?;
        let second = self.byte(u64::from(address) + 1)?;
        Some(u16::from_le_bytes([first, second]))
    }

    /// Whether the byte at an address may be written.
    #[tactic(auto, unfolding(unix_model::specs::Memory::is_writable))]
    fn is_writable(&self, address: u64) -> bool
        requires { address < 2 ^ 33 }
        ensures { result ≡ is_writable (table_of self.now) address }
    {
        match self.page((address / 4096) as u32) {
            Some(page) => page.writable,
            None => false,
        }
    }

    /// Whether each byte of a range may be written.
    #[tactic(auto, using(unix_model::proofs::MemoryLaws::writes))]
    pub fn all_writable(&self, address: u32, count: usize) -> bool
        requires { count ≤ 4096 }
        ensures { result ≡ all_writable (table_of self.now) address count }
    {
        for i in 0..count {
            if !self.is_writable(u64::from(address) + i as u64) {
                return false;
            }
        }
        true
    }

    /// Writes bytes from an address on, each where it is mapped.
    #[tactic(auto, using(unix_model::proofs::MemoryLaws::writes))]
    pub fn write(&mut self, address: u32, bytes: &[u8])
        requires { length bytes.now ≤ 4096 }
        ensures { table_of self.new ≡ with_bytes (table_of self.old) address bytes.now }
    {
        for (i, byte) in bytes.iter().enumerate() {
            self.set_byte(u64::from(address) + i as u64, *byte);
        }
    }
}
