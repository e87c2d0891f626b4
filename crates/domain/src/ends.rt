//! Domains end.

ghost use Rattle.std.specs.Prelude.{◌≡◌, ℕ, ◌<◌, ◌+◌, true, [], ◌∷◌, List, Some, MatchOption};
ghost use Rattle.kn_base.specs.declared.key.Key.{Key};
ghost use Rattle.kn_base.specs.Memory.{Memory};
ghost use Rattle.kernel_tables.specs.Kernel.{Kernel, kernel_of};
ghost use Rattle.kernel_tables.specs.Rows.{entry_at, of_domain, domain_rows};
ghost use Rattle.kernel_tables.specs.Blocks.{key_block, ChangesBlocks};
ghost use Rattle.space_bank.specs.Bank.{BankGood};
ghost use Rattle.space_bank.specs.Shares.{Outside, Shares, key_names_node};
ghost use Rattle.unix_model.specs.Tables.{at};
ghost use Rattle.domain.specs.Domains.{roots};
ghost use Rattle.domain.specs.Rules.{RowsGood};
ghost use Rattle.domain.specs.Ends.{IsQuiet, IsNodeOnce, Clears, GivesBack, MayEnd, MakesZombie, MayDrop, DropsDomain, node_gone, ended_blocks, dropped_blocks};

use super::readers::slots::root_of;
use super::readers::words::{DESCRIPTORS, REGISTERS, node_of_words};
use super::setters::set_phase;
use super::steps::{put_row, put_slot};
use super::types::Phase;
use kn_base::{Key, NodeId, Store};
use space_bank::give_node;

// Writes Null at all places of a node of a domain of which no key names anything that is counted.
fn clear_row<T: Store>(store: &mut T, node: NodeId)
    requires good { BankGood (kernel_of (T.memory store.old)) }
    requires mine { of_domain (entry_at (kernel_of (T.memory store.old)).node_entries node.0) ≡ true }
    requires quiet { IsQuiet (domain_rows (kernel_of (T.memory store.old)) node.0) }
    ensures cleared { Clears (kernel_of (T.memory store.old)) (kernel_of (T.memory store.new)) node.0 16 }
    ensures good { BankGood (kernel_of (T.memory store.new)) }
    ensures blocks { ChangesBlocks (T.blocks store.old) (T.blocks store.new) (key_block (kernel_of (T.memory store.old)).pages node.0 ∷ []) }
    ensures keeps { T.keeps store.old store.new }
{
    for place in 0..16 {
        put_row(store, node, place, Key::Null);
    }
}

// Gives a node of a domain back that nothing names but a key in hand.
fn give_row<T: Store>(store: &mut T, node: NodeId)
    requires good { BankGood (kernel_of (T.memory store.old)) }
    requires once { IsNodeOnce (kernel_of (T.memory store.old)) node.0 }
    requires quiet { IsQuiet (domain_rows (kernel_of (T.memory store.old)) node.0) }
    requires in_hand { (outside : Outside) × (hand : List Key) × (key : Key) × (key_names_node node.0 key ≡ true) × Shares (kernel_of (T.memory store.old)) outside (key ∷ hand) }
    ensures given { GivesBack (kernel_of (T.memory store.old)) (kernel_of (T.memory store.new)) node.0 }
    ensures good { BankGood (kernel_of (T.memory store.new)) }
    ensures blocks { ChangesBlocks (T.blocks store.old) (T.blocks store.new) (node_gone (kernel_of (T.memory store.old)) node.0) }
    ensures keeps { T.keeps store.old store.new }
{
    clear_row(store, node);
    give_node(store, node);
}

// Makes a zombie of a domain, by its root.
fn end_process<T: Store>(store: &mut T, root: NodeId)
    requires good { BankGood (kernel_of (T.memory store.old)) }
    requires rows { RowsGood (domain_rows (kernel_of (T.memory store.old))) }
    requires ends { MayEnd (kernel_of (T.memory store.old)) root.0 }
    requires shares { (outside : Outside) × (hand : List Key) × Shares (kernel_of (T.memory store.old)) outside hand }
    ensures ended { MakesZombie (kernel_of (T.memory store.old)) (kernel_of (T.memory store.new)) root.0 }
    ensures rows { RowsGood (domain_rows (kernel_of (T.memory store.new))) }
    ensures good { BankGood (kernel_of (T.memory store.new)) }
    ensures blocks { ChangesBlocks (T.blocks store.old) (T.blocks store.new) (ended_blocks (kernel_of (T.memory store.old)) root.0) }
    ensures keeps { T.keeps store.old store.new }
{
    let regs = node_of_words(store, root, REGISTERS);
    let descriptors = node_of_words(store, root, DESCRIPTORS);
    set_phase(store, root, Phase::Zombie);
    put_row(store, root, 3, Key::Null);
    put_row(store, root, 4, Key::Null);
    give_row(store, regs);
    give_row(store, descriptors);
}

/// Makes a zombie of the domain of a slot. Its process exits, has no descriptor, no space and no buffer, and each of its two
/// nodes of words is named once. These nodes are given back.
pub fn make_zombie<T: Store>(store: &mut T, slot: u8)
    requires good { BankGood (kernel_of (T.memory store.old)) }
    requires rows { RowsGood (domain_rows (kernel_of (T.memory store.old))) }
    requires slot { slot < 64 }
    requires ends { MatchOption (at (roots (kernel_of (T.memory store.old))) slot) ⊥ (λ root. MayEnd (kernel_of (T.memory store.old)) root) }
    requires shares { (outside : Outside) × (hand : List Key) × Shares (kernel_of (T.memory store.old)) outside hand }
    ensures ended { MatchOption (at (roots (kernel_of (T.memory store.old))) slot) ⊥ (λ root. MakesZombie (kernel_of (T.memory store.old)) (kernel_of (T.memory store.new)) root) }
    ensures rows { RowsGood (domain_rows (kernel_of (T.memory store.new))) }
    ensures good { BankGood (kernel_of (T.memory store.new)) }
    ensures blocks { MatchOption (at (roots (kernel_of (T.memory store.old))) slot) ⊥ (λ root. ChangesBlocks (T.blocks store.old) (T.blocks store.new) (ended_blocks (kernel_of (T.memory store.old)) root)) }
    ensures keeps { T.keeps store.old store.new }
{
    match root_of(store, slot) {
        Some(root) => end_process(store, root),
        None => unreachable!(),
    }
}

// Drops the domain of a slot, whose root is this one.
fn drop_root<T: Store>(store: &mut T, slot: u8, root: NodeId)
    requires good { BankGood (kernel_of (T.memory store.old)) }
    requires rows { RowsGood (domain_rows (kernel_of (T.memory store.old))) }
    requires slot { slot < 64 }
    requires named { at (roots (kernel_of (T.memory store.old))) slot ≡ Some root.0 }
    requires drops { MayDrop (kernel_of (T.memory store.old)) root.0 }
    requires shares { (outside : Outside) × (hand : List Key) × Shares (kernel_of (T.memory store.old)) outside hand }
    ensures dropped { DropsDomain (kernel_of (T.memory store.old)) (kernel_of (T.memory store.new)) slot root.0 }
    ensures rows { RowsGood (domain_rows (kernel_of (T.memory store.new))) }
    ensures good { BankGood (kernel_of (T.memory store.new)) }
    ensures blocks { ChangesBlocks (T.blocks store.old) (T.blocks store.new) (dropped_blocks (kernel_of (T.memory store.old)) slot root.0) }
    ensures keeps { T.keeps store.old store.new }
{
    put_slot(store, slot, Key::Null);
    give_row(store, root);
}

/// Drops the zombie of a slot. Its root is named by the slot table alone, and is given back. The slot is free then.
pub fn drop_domain<T: Store>(store: &mut T, slot: u8)
    requires good { BankGood (kernel_of (T.memory store.old)) }
    requires rows { RowsGood (domain_rows (kernel_of (T.memory store.old))) }
    requires slot { slot < 64 }
    requires drops { MatchOption (at (roots (kernel_of (T.memory store.old))) slot) ⊥ (λ root. MayDrop (kernel_of (T.memory store.old)) root) }
    requires shares { (outside : Outside) × (hand : List Key) × Shares (kernel_of (T.memory store.old)) outside hand }
    ensures dropped { MatchOption (at (roots (kernel_of (T.memory store.old))) slot) ⊥ (λ root. DropsDomain (kernel_of (T.memory store.old)) (kernel_of (T.memory store.new)) slot root) }
    ensures rows { RowsGood (domain_rows (kernel_of (T.memory store.new))) }
    ensures good { BankGood (kernel_of (T.memory store.new)) }
    ensures blocks { MatchOption (at (roots (kernel_of (T.memory store.old))) slot) ⊥ (λ root. ChangesBlocks (T.blocks store.old) (T.blocks store.new) (dropped_blocks (kernel_of (T.memory store.old)) slot root)) }
    ensures keeps { T.keeps store.old store.new }
{
    match root_of(store, slot) {
        Some(root) => drop_root(store, slot, root),
        None => unreachable!(),
    }
}
