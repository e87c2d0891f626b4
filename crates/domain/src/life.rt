//! Domains are born, and end.

ghost use Rattle.std.specs.Prelude.{◌≡◌, ℕ, ◌<◌, ◌≤◌, ◌+◌, ◌*◌, true, [], ◌∷◌, List, Some};
ghost use Rattle.kn_base.specs.declared.key.Key.{Key};
ghost use Rattle.kn_base.specs.declared.key.Key.TheVariants.{Null, Start, Node};
ghost use Rattle.kn_base.specs.Memory.{Memory};
ghost use Rattle.kernel_tables.specs.Kernel.{Kernel, kernel_of};
ghost use Rattle.kernel_tables.specs.Rows.{entry_at, of_domain, domain_rows};
ghost use Rattle.kernel_tables.specs.Blocks.{key_block, ChangesBlocks};
ghost use Rattle.space_bank.specs.Bank.{BankGood};
ghost use Rattle.space_bank.specs.FreeList.{is_free};
ghost use Rattle.space_bank.specs.Shares.{Outside, Shares};
ghost use Rattle.kernel_forest.specs.Moves.{TakesRow, PutsRow};
ghost use Rattle.domain.specs.Keys.{key_of_space};
ghost use Rattle.domain.specs.Rules.{RowsGood};
ghost use Rattle.domain.specs.Life.{Fills, with_zeros, null_row, slot_key, FillsRoot, MakesDomain, born_blocks};

use super::keys::counted_of;
use super::steps::{put_row, put_slot, take_row};
use kn_base::{Key, NodeId, Store};

// Writes the number of three zeros at places of a node of a domain where Null stands, from one place on, below another.
fn zero_keys<T: Store>(store: &mut T, node: NodeId, from: u8, end: u8)
    requires good { BankGood (kernel_of (T.memory store.old)) }
    requires mine { of_domain (entry_at (kernel_of (T.memory store.old)).node_entries node.0) ≡ true }
    requires nulls { (place : ℕ) → from ≤ place → domain_rows (kernel_of (T.memory store.old)) node.0 place ≡ Null }
    requires order { from ≤ end }
    requires end { end ≤ 16 }
    ensures filled { let old = kernel_of (T.memory store.old) in Fills old (kernel_of (T.memory store.new)) node.0 (with_zeros (domain_rows old node.0) from end) [] }
    ensures mine { of_domain (entry_at (kernel_of (T.memory store.new)).node_entries node.0) ≡ true }
    ensures good { BankGood (kernel_of (T.memory store.new)) }
    ensures blocks { ChangesBlocks (T.blocks store.old) (T.blocks store.new) (key_block (kernel_of (T.memory store.old)).pages node.0 ∷ []) }
    ensures keeps { T.keeps store.old store.new }
{
    for place in from..end {
        put_row(store, node, place, Key::Number([0; 12]));
    }
}

// Writes the keys of the root of a domain in a fresh node.
fn fill_root<T: Store>(
    store: &mut T,
    root: NodeId,
    slot: u8,
    space: NodeId,
    regs: NodeId,
    descriptors: NodeId,
)
    requires good { BankGood (kernel_of (T.memory store.old)) }
    requires mine { of_domain (entry_at (kernel_of (T.memory store.old)).node_entries root.0) ≡ true }
    requires nulls { domain_rows (kernel_of (T.memory store.old)) root.0 ≡ null_row }
    ensures filled { FillsRoot (kernel_of (T.memory store.old)) (kernel_of (T.memory store.new)) root.0 slot space.0 regs.0 descriptors.0 }
    ensures good { BankGood (kernel_of (T.memory store.new)) }
    ensures blocks { ChangesBlocks (T.blocks store.old) (T.blocks store.new) (key_block (kernel_of (T.memory store.old)).pages root.0 ∷ []) }
    ensures keeps { T.keeps store.old store.new }
{
    zero_keys(store, root, 7, 13);
    let life = counted_of(1, 0);
    put_row(store, root, 6, life);
    put_row(store, root, 2, Key::Meter { slot });
    let space_key = Key::Segment {
        id: space,
        height: 5,
    };
    put_row(store, root, 0, space_key);
    let keeper = Key::Start {
        domain: NodeId(1),
        byte: slot,
    };
    put_row(store, root, 1, keeper);
    put_row(store, root, 3, Key::Node { id: regs });
    put_row(store, root, 4, Key::Node { id: descriptors });
}

/// Makes a domain in a free slot, with a space whose one key is the caller's. It runs, with zeros in all its words and no
/// descriptor. The answer is its root.
pub fn new_domain<T: Store>(store: &mut T, slot: u8, space: NodeId) -> NodeId
    requires good { BankGood (kernel_of (T.memory store.old)) }
    requires rows { RowsGood (domain_rows (kernel_of (T.memory store.old))) }
    requires slot { slot < 64 }
    requires free { slot_key (kernel_of (T.memory store.old)) slot ≡ Null }
    requires room { let old = kernel_of (T.memory store.old) in old.machine.nodes_taken + 18 ≤ old.nodes }
    requires shares { (outside : Outside) × (hand : List Key) × Shares (kernel_of (T.memory store.old)) outside (key_of_space (Some space.0) ∷ hand) }
    ensures made { MakesDomain (kernel_of (T.memory store.old)) (kernel_of (T.memory store.new)) slot space.0 result.0 }
    ensures rows { RowsGood (domain_rows (kernel_of (T.memory store.new))) }
    ensures good { BankGood (kernel_of (T.memory store.new)) }
    ensures blocks { (regs : ℕ) × (descriptors : ℕ) × ChangesBlocks (T.blocks store.old) (T.blocks store.new) (born_blocks (kernel_of (T.memory store.old)) slot regs descriptors result.0) }
    ensures keeps { T.keeps store.old store.new }
{
    let regs = take_row(store);
    zero_keys(store, regs, 0, 11);
    let descriptors = take_row(store);
    zero_keys(store, descriptors, 0, 11);
    let root = take_row(store);
    fill_root(store, root, slot, space, regs, descriptors);
    put_slot(store, slot, Key::Domain { id: root });
    root
}
