//! What is written in a domain, by its root.

pub mod buffer;
pub mod life;
pub mod space;
pub mod words;

ghost use Rattle.std.specs.Prelude.{◌≡◌, ℕ, ◌<◌, ◌≤◌, ◌+◌, true, [], ◌∷◌, length, slice_index};
ghost use Rattle.kn_base.specs.Memory.{Memory};
ghost use Rattle.kernel_tables.specs.Kernel.{Kernel, kernel_of};
ghost use Rattle.kernel_tables.specs.Rows.{domain_rows};
ghost use Rattle.kernel_tables.specs.Blocks.{key_block, ChangesBlocks};
ghost use Rattle.space_bank.specs.Bank.{BankGood};
ghost use Rattle.unix_model.specs.Rules.{IsBreak};
ghost use Rattle.unix_model.specs.Tables.{at, with_at};
ghost use Rattle.domain.specs.Keys.{is_number, word_in, words_in};
ghost use Rattle.domain.specs.Rules.{RowsGood, NumberFits, written};
ghost use Rattle.domain.specs.Sets.{WritesNumbers};
ghost use Rattle.domain.specs.Domains.{domains, lives, with_heads};

use super::keys::{number_of, root_key, with_ids, with_phase};
use super::types::{Answer, Heads, Phase};
use kn_base::{Key, NodeId, Store};
use space_bank::write_key;
use unix_model::Request;

// Writes a number at one of the places 6 to 12 of the root of a domain.
fn put_number<T: Store>(store: &mut T, root: NodeId, place: u8, key: Key)
    requires good { BankGood (kernel_of (T.memory store.old)) }
    requires rows { RowsGood (domain_rows (kernel_of (T.memory store.old))) }
    requires live { (at (domains (kernel_of (T.memory store.old))) root.0).live ≡ true }
    requires low { 6 ≤ place }
    requires high { place ≤ 12 }
    requires fits { NumberFits place key }
    ensures put { domain_rows (kernel_of (T.memory store.new)) ≡ written (domain_rows (kernel_of (T.memory store.old))) root.0 place key }
    ensures rows { RowsGood (domain_rows (kernel_of (T.memory store.new))) }
    ensures live { (at (domains (kernel_of (T.memory store.new))) root.0).live ≡ true }
    ensures others { WritesNumbers (kernel_of (T.memory store.old)) (kernel_of (T.memory store.new)) }
    ensures good { BankGood (kernel_of (T.memory store.new)) }
    ensures blocks { ChangesBlocks (T.blocks store.old) (T.blocks store.new) (key_block (kernel_of (T.memory store.old)).pages root.0 ∷ []) }
    ensures keeps { T.keeps store.old store.new }
{
    write_key(store, root, place, key);
}

// Writes two numbers one after the other, at places of 6 to 12 of the root of a domain.
fn put_numbers<T: Store>(store: &mut T, root: NodeId, place: u8, first: Key, second: Key)
    requires good { BankGood (kernel_of (T.memory store.old)) }
    requires rows { RowsGood (domain_rows (kernel_of (T.memory store.old))) }
    requires live { (at (domains (kernel_of (T.memory store.old))) root.0).live ≡ true }
    requires low { 6 ≤ place }
    requires high { place ≤ 11 }
    requires first_fits { NumberFits place first }
    requires second_fits { NumberFits (place + 1) second }
    ensures put { domain_rows (kernel_of (T.memory store.new)) ≡ written (written (domain_rows (kernel_of (T.memory store.old))) root.0 place first) root.0 (place + 1) second }
    ensures rows { RowsGood (domain_rows (kernel_of (T.memory store.new))) }
    ensures others { WritesNumbers (kernel_of (T.memory store.old)) (kernel_of (T.memory store.new)) }
    ensures good { BankGood (kernel_of (T.memory store.new)) }
    ensures blocks { ChangesBlocks (T.blocks store.old) (T.blocks store.new) (key_block (kernel_of (T.memory store.old)).pages root.0 ∷ []) }
    ensures keeps { T.keeps store.old store.new }
{
    put_number(store, root, place, first);
    put_number(store, root, place + 1, second);
}

/// Sets how far the process is with its turn.
pub fn set_phase<T: Store>(store: &mut T, root: NodeId, phase: Phase)
    requires good { BankGood (kernel_of (T.memory store.old)) }
    requires rows { RowsGood (domain_rows (kernel_of (T.memory store.old))) }
    requires live { (at (domains (kernel_of (T.memory store.old))) root.0).live ≡ true }
    ensures set { let old = domains (kernel_of (T.memory store.old)) in domains (kernel_of (T.memory store.new)) ≡ with_at old root.0 (record (at old root.0) { phase = phase }) }
    ensures lives { lives (kernel_of (T.memory store.new)) ≡ lives (kernel_of (T.memory store.old)) }
    ensures others { WritesNumbers (kernel_of (T.memory store.old)) (kernel_of (T.memory store.new)) }
    ensures rows { RowsGood (domain_rows (kernel_of (T.memory store.new))) }
    ensures good { BankGood (kernel_of (T.memory store.new)) }
    ensures blocks { ChangesBlocks (T.blocks store.old) (T.blocks store.new) (key_block (kernel_of (T.memory store.old)).pages root.0 ∷ []) }
    ensures keeps { T.keeps store.old store.new }
{
    let key = with_phase(root_key(store, root, 7), phase);
    put_number(store, root, 7, key);
}

/// Sets whether the process is parked, as 0 or 1, and the two words that tell on what, of which the second is 0.
pub fn set_mark_words<T: Store>(store: &mut T, root: NodeId, words: [u32; 3])
    requires good { BankGood (kernel_of (T.memory store.old)) }
    requires rows { RowsGood (domain_rows (kernel_of (T.memory store.old))) }
    requires live { (at (domains (kernel_of (T.memory store.old))) root.0).live ≡ true }
    requires parked { slice_index words 0 < 2 }
    requires unused { slice_index words 2 ≡ 0 }
    ensures set { let old = domains (kernel_of (T.memory store.old)) in domains (kernel_of (T.memory store.new)) ≡ with_at old root.0 (record (at old root.0) { marks = words }) }
    ensures lives { lives (kernel_of (T.memory store.new)) ≡ lives (kernel_of (T.memory store.old)) }
    ensures others { WritesNumbers (kernel_of (T.memory store.old)) (kernel_of (T.memory store.new)) }
    ensures rows { RowsGood (domain_rows (kernel_of (T.memory store.new))) }
    ensures good { BankGood (kernel_of (T.memory store.new)) }
    ensures blocks { ChangesBlocks (T.blocks store.old) (T.blocks store.new) (key_block (kernel_of (T.memory store.old)).pages root.0 ∷ []) }
    ensures keeps { T.keeps store.old store.new }
{
    let key = number_of(words);
    put_number(store, root, 12, key);
}

/// Sets the process's own id and its parent's, its break, and the word that a wait for it answers. The break starts at a page,
/// and lies between its start and `0x7FFE_0000`.
pub fn set_heads<T: Store>(store: &mut T, root: NodeId, heads: Heads)
    requires good { BankGood (kernel_of (T.memory store.old)) }
    requires rows { RowsGood (domain_rows (kernel_of (T.memory store.old))) }
    requires live { (at (domains (kernel_of (T.memory store.old))) root.0).live ≡ true }
    requires in_bounds { IsBreak heads.break_start heads.break_end }
    ensures set { let old = domains (kernel_of (T.memory store.old)) in domains (kernel_of (T.memory store.new)) ≡ with_at old root.0 (with_heads (at old root.0) heads) }
    ensures lives { lives (kernel_of (T.memory store.new)) ≡ lives (kernel_of (T.memory store.old)) }
    ensures others { WritesNumbers (kernel_of (T.memory store.old)) (kernel_of (T.memory store.new)) }
    ensures rows { RowsGood (domain_rows (kernel_of (T.memory store.new))) }
    ensures good { BankGood (kernel_of (T.memory store.new)) }
    ensures blocks { ChangesBlocks (T.blocks store.old) (T.blocks store.new) (key_block (kernel_of (T.memory store.old)).pages root.0 ∷ []) }
    ensures keeps { T.keeps store.old store.new }
{
    let ids = with_ids(root_key(store, root, 7), heads.pid, heads.parent);
    let rest = number_of([heads.break_start, heads.break_end, heads.word]);
    put_numbers(store, root, 7, ids, rest);
}

// The four words that a call is given.
fn arguments(request: &Request) -> [u32; 4]
    ensures words { result ≡ request.now.args }
    ensures four { length result ≡ 4 }
{
    request.args
}

// The number of a call and its first two words.
fn call_number(call: u8, first: u32, second: u32) -> Key
    ensures words { words_in result ≡ call ∷ first ∷ second ∷ [] }
    ensures number { is_number result ≡ true }
    ensures fits { word_in result 0 < 256 }
{
    number_of([u32::from(call), first, second])
}

/// Sets the request that waits for a server, which brings at most 4,096 bytes.
pub fn set_request<T: Store>(store: &mut T, root: NodeId, request: Request)
    requires good { BankGood (kernel_of (T.memory store.old)) }
    requires rows { RowsGood (domain_rows (kernel_of (T.memory store.old))) }
    requires live { (at (domains (kernel_of (T.memory store.old))) root.0).live ≡ true }
    requires length { request.length ≤ 4096 }
    ensures set { let old = domains (kernel_of (T.memory store.old)) in domains (kernel_of (T.memory store.new)) ≡ with_at old root.0 (record (at old root.0) { request = request }) }
    ensures lives { lives (kernel_of (T.memory store.new)) ≡ lives (kernel_of (T.memory store.old)) }
    ensures others { WritesNumbers (kernel_of (T.memory store.old)) (kernel_of (T.memory store.new)) }
    ensures rows { RowsGood (domain_rows (kernel_of (T.memory store.new))) }
    ensures good { BankGood (kernel_of (T.memory store.new)) }
    ensures blocks { ChangesBlocks (T.blocks store.old) (T.blocks store.new) (key_block (kernel_of (T.memory store.old)).pages root.0 ∷ []) }
    ensures keeps { T.keeps store.old store.new }
{
    let [first, second, third, fourth] = arguments(&request);
    let head = call_number(request.call, first, second);
    let rest = number_of([third, fourth, u32::from(request.length)]);
    put_numbers(store, root, 9, head, rest);
}

/// Sets the answer that waits for the process, which brings at most 4,096 bytes.
pub fn set_answer<T: Store>(store: &mut T, root: NodeId, answer: Answer)
    requires good { BankGood (kernel_of (T.memory store.old)) }
    requires rows { RowsGood (domain_rows (kernel_of (T.memory store.old))) }
    requires live { (at (domains (kernel_of (T.memory store.old))) root.0).live ≡ true }
    requires length { answer.length ≤ 4096 }
    ensures set { let old = domains (kernel_of (T.memory store.old)) in domains (kernel_of (T.memory store.new)) ≡ with_at old root.0 (record (at old root.0) { answer = answer }) }
    ensures lives { lives (kernel_of (T.memory store.new)) ≡ lives (kernel_of (T.memory store.old)) }
    ensures others { WritesNumbers (kernel_of (T.memory store.old)) (kernel_of (T.memory store.new)) }
    ensures rows { RowsGood (domain_rows (kernel_of (T.memory store.new))) }
    ensures good { BankGood (kernel_of (T.memory store.new)) }
    ensures blocks { ChangesBlocks (T.blocks store.old) (T.blocks store.new) (key_block (kernel_of (T.memory store.old)).pages root.0 ∷ []) }
    ensures keeps { T.keeps store.old store.new }
{
    let key = number_of([answer.value, answer.at, u32::from(answer.length)]);
    put_number(store, root, 11, key);
}
