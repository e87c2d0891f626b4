//! Words that are written in the other two nodes of a domain.

ghost use Rattle.std.specs.Prelude.{◌≡◌, ℕ, ◌<◌, ◌+◌, ◌*◌, ◌%◌, true, [], ◌∷◌, slice_set};
ghost use Rattle.std.specs.Option.{ForSome};
ghost use Rattle.kn_base.specs.Memory.{Memory};
ghost use Rattle.kernel_tables.specs.Kernel.{Kernel, kernel_of};
ghost use Rattle.kernel_tables.specs.Rows.{domain_rows};
ghost use Rattle.kernel_tables.specs.Blocks.{key_block, ChangesBlocks};
ghost use Rattle.space_bank.specs.Bank.{BankGood};
ghost use Rattle.unix_model.specs.Execution.{register_word};
ghost use Rattle.unix_model.specs.Tables.{at, with_at};
ghost use Rattle.domain.specs.Keys.{is_number, node_in, word_in, words_in};
ghost use Rattle.domain.specs.Rules.{RowsGood, IsNamed, NamedAt, WordsGood, written};
ghost use Rattle.domain.specs.Sets.{WritesNumbers, HoldsWords, node_blocks};
ghost use Rattle.domain.specs.Domains.{domains, lives, words_by};

use super::super::keys::{description_word, number_of};
use super::super::readers::words::{DESCRIPTORS, REGISTERS, node_of_words, words_at};
use super::super::steps::put_row;
use kn_base::{Key, NodeId, Store};
use unix_model::Regs;

// Writes a number in a node of words.
fn put_words<T: Store>(store: &mut T, node: NodeId, place: u8, key: Key)
    requires good { BankGood (kernel_of (T.memory store.old)) }
    requires rows { RowsGood (domain_rows (kernel_of (T.memory store.old))) }
    requires named { IsNamed (domain_rows (kernel_of (T.memory store.old))) node.0 }
    requires place { place < 11 }
    requires number { is_number key ≡ true }
    requires words { let rows = domain_rows (kernel_of (T.memory store.old)) in WordsGood rows node.0 (with_at (rows node.0) place key) }
    ensures put { domain_rows (kernel_of (T.memory store.new)) ≡ written (domain_rows (kernel_of (T.memory store.old))) node.0 place key }
    ensures rows { RowsGood (domain_rows (kernel_of (T.memory store.new))) }
    ensures names { (a : ℕ) (i : ℕ) → node_in (domain_rows (kernel_of (T.memory store.new)) a i) ≡ node_in (domain_rows (kernel_of (T.memory store.old)) a i) }
    ensures others { WritesNumbers (kernel_of (T.memory store.old)) (kernel_of (T.memory store.new)) }
    ensures good { BankGood (kernel_of (T.memory store.new)) }
    ensures blocks { ChangesBlocks (T.blocks store.old) (T.blocks store.new) (key_block (kernel_of (T.memory store.old)).pages node.0 ∷ []) }
    ensures keeps { T.keeps store.old store.new }
{
    put_row(store, node, place, key);
}

// The word of a node of words, in place of one of the three at a place.
fn with_word(words: [u32; 3], n: u8, word: u32) -> Key
    requires word { n < 3 }
    ensures words { words_in result ≡ slice_set words n word }
    ensures number { is_number result ≡ true }
{
    let mut changed = words;
    changed[n as usize] = word;
    number_of(changed)
}

/// Sets the open description of a descriptor, or closes it. Descriptors are 0 to 31, open descriptions 0 to 2,047.
pub fn set_descriptor<T: Store>(store: &mut T, root: NodeId, number: u8, description: Option<u16>)
    requires good { BankGood (kernel_of (T.memory store.old)) }
    requires rows { RowsGood (domain_rows (kernel_of (T.memory store.old))) }
    requires live { (at (domains (kernel_of (T.memory store.old))) root.0).live ≡ true }
    requires whole { (at (domains (kernel_of (T.memory store.old))) root.0).whole ≡ true }
    requires number { number < 32 }
    requires description { ForSome description (λ n. n < 2048) }
    ensures set { let old = domains (kernel_of (T.memory store.old)) in domains (kernel_of (T.memory store.new)) ≡ with_at old root.0 (record (at old root.0) { descriptors = with_at (at old root.0).descriptors number description }) }
    ensures lives { lives (kernel_of (T.memory store.new)) ≡ lives (kernel_of (T.memory store.old)) }
    ensures others { WritesNumbers (kernel_of (T.memory store.old)) (kernel_of (T.memory store.new)) }
    ensures rows { RowsGood (domain_rows (kernel_of (T.memory store.new))) }
    ensures good { BankGood (kernel_of (T.memory store.new)) }
    ensures blocks { ChangesBlocks (T.blocks store.old) (T.blocks store.new) (node_blocks (kernel_of (T.memory store.old)).pages (node_in (domain_rows (kernel_of (T.memory store.old)) root.0 4))) }
    ensures keeps { T.keeps store.old store.new }
{
    let node = node_of_words(store, root, DESCRIPTORS);
    let words = words_at(store, node, number / 3);
    let key = with_word(words, number % 3, description_word(description));
    put_words(store, node, number / 3, key);
}

// One of the registers, and pc behind them.
#[tactic(auto, unfolding(crate::specs::Domains::words_by))]
fn register(regs: &Regs, n: u8) -> u32
    requires { n < 33 }
    ensures word { result ≡ words_by regs.now n }
    ensures zero { n ≡ 0 → result ≡ register_word regs.now 0 }
    ensures pc { n ≡ 32 → result ≡ regs.now.pc }
{
    if n < 32 { regs.x[n as usize] } else { regs.pc }
}

// Three of the registers as a number.
fn three_registers(regs: &Regs, place: u8) -> Key
    requires place { place < 11 }
    ensures words { words_in result ≡ words_by regs.now (3 * place) ∷ words_by regs.now (3 * place + 1) ∷ words_by regs.now (3 * place + 2) ∷ [] }
    ensures number { is_number result ≡ true }
    ensures zero { place ≡ 0 → word_in result 0 ≡ register_word regs.now 0 }
    ensures pc { place ≡ 10 → word_in result 2 ≡ regs.now.pc }
{
    number_of([
        register(regs, 3 * place),
        register(regs, 3 * place + 1),
        register(regs, 3 * place + 2),
    ])
}

// Writes the registers in a register node.
fn put_registers<T: Store>(store: &mut T, node: NodeId, regs: &Regs)
    requires good { BankGood (kernel_of (T.memory store.old)) }
    requires rows { RowsGood (domain_rows (kernel_of (T.memory store.old))) }
    requires named { NamedAt (domain_rows (kernel_of (T.memory store.old))) 3 node.0 }
    requires zero { register_word regs.now 0 ≡ 0 }
    requires aligned { regs.now.pc % 4 ≡ 0 }
    ensures put { HoldsWords (domain_rows (kernel_of (T.memory store.old))) (domain_rows (kernel_of (T.memory store.new))) node.0 (words_by regs.now) 11 }
    ensures rows { RowsGood (domain_rows (kernel_of (T.memory store.new))) }
    ensures others { WritesNumbers (kernel_of (T.memory store.old)) (kernel_of (T.memory store.new)) }
    ensures good { BankGood (kernel_of (T.memory store.new)) }
    ensures blocks { ChangesBlocks (T.blocks store.old) (T.blocks store.new) (key_block (kernel_of (T.memory store.old)).pages node.0 ∷ []) }
    ensures keeps { T.keeps store.old store.new }
{
    for place in 0..11 {
        let key = three_registers(regs, place);
        put_words(store, node, place, key);
    }
}

/// Sets the registers and pc of a process that is no zombie. Register x0 is 0, and pc a multiple of 4.
pub fn set_regs<T: Store>(store: &mut T, root: NodeId, regs: &Regs)
    requires good { BankGood (kernel_of (T.memory store.old)) }
    requires rows { RowsGood (domain_rows (kernel_of (T.memory store.old))) }
    requires live { (at (domains (kernel_of (T.memory store.old))) root.0).live ≡ true }
    requires whole { (at (domains (kernel_of (T.memory store.old))) root.0).whole ≡ true }
    requires zero { register_word regs.now 0 ≡ 0 }
    requires aligned { regs.now.pc % 4 ≡ 0 }
    ensures set { let old = domains (kernel_of (T.memory store.old)) in domains (kernel_of (T.memory store.new)) ≡ with_at old root.0 (record (at old root.0) { regs = words_by regs.now }) }
    ensures lives { lives (kernel_of (T.memory store.new)) ≡ lives (kernel_of (T.memory store.old)) }
    ensures others { WritesNumbers (kernel_of (T.memory store.old)) (kernel_of (T.memory store.new)) }
    ensures rows { RowsGood (domain_rows (kernel_of (T.memory store.new))) }
    ensures good { BankGood (kernel_of (T.memory store.new)) }
    ensures blocks { ChangesBlocks (T.blocks store.old) (T.blocks store.new) (node_blocks (kernel_of (T.memory store.old)).pages (node_in (domain_rows (kernel_of (T.memory store.old)) root.0 3))) }
    ensures keeps { T.keeps store.old store.new }
{
    let node = node_of_words(store, root, REGISTERS);
    put_registers(store, node, regs);
}
