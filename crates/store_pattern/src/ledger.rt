//! A book of visitors in the pages of a store. Each call is one equation on the typed record.

ghost use Rattle.std.specs.Prelude.{◌≡◌, ◌<◌, ◌≤◌, ◌+◌, ◌*◌, ℕ, Some, None, length, slice_index, slice_index_or, slice_set};
ghost use Rattle.kn_base.specs.declared.key.Key.TheVariants.{Null};
ghost use Rattle.kn_base.specs.Memory.{Memory};
ghost use Rattle.store_pattern.specs.Ledger.{Ledger, ledger_of, BookFits};

use super::Visitor;
use super::visitor::{visitor_bytes, visitor_in};
use kn_base::{Key, NodeId, PageId, Store};

/// A row of the book, or None where its bytes spell no visitor.
#[tactic(auto, using(kn_base::proofs::RowLaws::tables_read), unfolding(crate::specs::Ledger::ledger_of, crate::specs::Ledger::words_of))]
pub fn entry<T: Store>(store: &T, n: u32) -> Option<Visitor>
    requires pages { BookFits (ledger_of (T.memory store.now)) }
    requires row { n < 512 * slice_index (ledger_of (T.memory store.now)).words 0 }
    ensures { result ≡ slice_index_or (ledger_of (T.memory store.now)).visitors n None }
{
    let mut bytes = [0; 8];
    store.read_page(PageId(2 + n / 512), (8 * (n % 512)) as u16, &mut bytes);
    visitor_in(bytes)
}

/// Writes a row of the book.
#[tactic(auto, using(kn_base::proofs::RowLaws::tables_written), unfolding(crate::specs::Ledger::ledger_of, crate::specs::Ledger::words_of))]
pub fn set_entry<T: Store>(store: &mut T, n: u32, visitor: Visitor)
    requires pages { BookFits (ledger_of (T.memory store.old)) }
    requires row { n < 512 * slice_index (ledger_of (T.memory store.old)).words 0 }
    ensures written { ledger_of (T.memory store.new) ≡ record (ledger_of (T.memory store.old)) { visitors = slice_set (ledger_of (T.memory store.old)).visitors n (Some visitor) } }
    ensures keeps { T.keeps store.old store.new }
{
    store.write_page(
        PageId(2 + n / 512),
        (8 * (n % 512)) as u16,
        &visitor_bytes(visitor),
    );
}

/// A word of page 1.
#[tactic(auto, using(kn_base::proofs::RowLaws::tables_read), unfolding(crate::specs::Ledger::ledger_of, crate::specs::Ledger::words_of))]
pub fn word<T: Store>(store: &T, n: u32) -> u32
    requires page { 2 ≤ (ledger_of (T.memory store.now)).pages }
    requires row { n < 1024 }
    ensures { result ≡ slice_index (ledger_of (T.memory store.now)).words n }
{
    let mut bytes = [0; 4];
    store.read_page(PageId(1), (4 * n) as u16, &mut bytes);
    let [a, b, c, d] = bytes;
    u32::from_le_bytes([a, b, c, d])
}

/// Writes a word of page 1.
#[tactic(auto, using(kn_base::proofs::RowLaws::tables_written), unfolding(crate::specs::Ledger::ledger_of, crate::specs::Ledger::words_of))]
pub fn set_word<T: Store>(store: &mut T, n: u32, word: u32)
    requires page { 2 ≤ (ledger_of (T.memory store.old)).pages }
    requires row { n < 1024 }
    requires not_the_count { 0 < n }
    ensures written { ledger_of (T.memory store.new) ≡ record (ledger_of (T.memory store.old)) { words = slice_set (ledger_of (T.memory store.old)).words n word } }
    ensures keeps { T.keeps store.old store.new }
{
    store.write_page(PageId(1), (4 * n) as u16, &word.to_le_bytes());
}

/// Writes a key.
#[tactic(auto, unfolding(crate::specs::Ledger::ledger_of, crate::specs::Ledger::words_of))]
pub fn set_guest<T: Store>(store: &mut T, node: NodeId, place: u8, key: Key)
    requires node { 16 * node.0 < length (ledger_of (T.memory store.old)).keys }
    requires place { place < 16 }
    ensures written { ledger_of (T.memory store.new) ≡ record (ledger_of (T.memory store.old)) { keys = slice_set (ledger_of (T.memory store.old)).keys (16 * node.0 + place) (Some key) } }
    ensures keeps { T.keeps store.old store.new }
{
    store.set_key(node, place, key);
}

/// Writes two rows, the number of visits in word 2, and a key: five calls, and one equation.
pub fn end_visit<T: Store>(store: &mut T, first: u32, second: u32, visitor: Visitor, visits: u32)
    requires pages { BookFits (ledger_of (T.memory store.old)) }
    requires keys { 16 < length (ledger_of (T.memory store.old)).keys }
    requires first_row { first < 512 * slice_index (ledger_of (T.memory store.old)).words 0 }
    requires second_row { second < 512 * slice_index (ledger_of (T.memory store.old)).words 0 }
    ensures written { ledger_of (T.memory store.new) ≡ record (ledger_of (T.memory store.old)) { words = slice_set (slice_set (ledger_of (T.memory store.old)).words 2 visits) 1 visitor.day; visitors = slice_set (slice_set (ledger_of (T.memory store.old)).visitors first (Some visitor)) second (Some visitor); keys = slice_set (ledger_of (T.memory store.old)).keys 19 (Some Null) } }
    ensures keeps { T.keeps store.old store.new }
{
    set_entry(store, first, visitor);
    set_word(store, 2, visits);
    set_entry(store, second, visitor);
    set_guest(store, NodeId(1), 3, Key::Null);
    set_word(store, 1, visitor.day);
}
