//! An empty bank on a store of zeros.

ghost use Rattle.std.specs.Prelude.{◌≡◌, ℕ, ◌<◌, ◌≤◌, ◌+◌, ◌-◌, ◌*◌, ◌%◌, ◌^◌, Some, [], length, replicate, slice_set};
ghost use Rattle.kn_base.specs.Rows.{overwritten};
ghost use Rattle.kn_base.specs.Memory.{Memory, zero_memory};
ghost use Rattle.kernel_tables.specs.declared.entry.Entry.TheVariants.{Fixed};
ghost use Rattle.kernel_tables.specs.Kernel.{Kernel, kernel_of, Sized, IsSized, first_page, node_count, zero_kernel};
ghost use Rattle.kernel_tables.specs.declared.row.Row.TheVariants.{Used};
ghost use Rattle.space_bank.specs.Fixed.{state_key, console_inode, empty_root, UnusedGood, FreshNodes, FixedNodes, FreshFiles};
ghost use Rattle.space_bank.specs.FreeList.{following};
ghost use Rattle.space_bank.specs.Setup.{free_entries, with_service_root, with_service_roots, empty_bank};
ghost use Rattle.space_bank.specs.Bank.{BankGood};
ghost use Rattle.space_bank.specs.Shares.{NoneNamed, Shares, nothing_outside};

use kernel_tables::{
    Entry, Inode, InodeKind, Row, first_bank_page, set_free_node, set_free_page, set_inode_entry,
    set_key_at, set_next_pid, set_node_entry, set_page_entry, set_quantum, set_size,
};
use kn_base::{Key, NodeId, Store};

// The object behind that of entry n, or 0 behind the last of `count`.
fn following(base: u32, count: u32, n: u32) -> u32
    requires inside { n < count }
    requires small { base + count < 2 ^ 32 }
    ensures { result ≡ following base count n }
{
    if n + 1 == count { 0 } else { base + (n + 1) }
}

// Makes all pages of the bank free, each naming the next one.
#[tactic(auto, using(crate::proofs::SetupLaws::linking))]
fn link_pages<T: Store>(store: &mut T, pages: u32)
    requires sized { Sized (kernel_of (T.memory store.old)) }
    requires all { pages ≡ (kernel_of (T.memory store.old)).size }
    requires rows { pages ≤ length (kernel_of (T.memory store.old)).page_entries }
    ensures linked { kernel_of (T.memory store.new) ≡ record (kernel_of (T.memory store.old)) { page_entries = overwritten (kernel_of (T.memory store.old)).page_entries 0 (free_entries (first_page pages) pages 0 pages) } }
    ensures keeps { T.keeps store.old store.new }
{
    let base = first_bank_page(pages);
    for n in 0..pages {
        let next = following(base, pages, n);
        set_page_entry(store, n, Entry::Free { next });
    }
}

// Makes all nodes behind the fixed ones free, each naming the next one.
#[tactic(auto, using(crate::proofs::SetupLaws::linking))]
fn link_nodes<T: Store>(store: &mut T, nodes: u32)
    requires sized { Sized (kernel_of (T.memory store.old)) }
    requires all { nodes ≡ (kernel_of (T.memory store.old)).nodes }
    requires rows { nodes ≤ length (kernel_of (T.memory store.old)).node_entries }
    ensures linked { kernel_of (T.memory store.new) ≡ record (kernel_of (T.memory store.old)) { node_entries = overwritten (kernel_of (T.memory store.old)).node_entries 15 (free_entries 0 nodes 15 (nodes - 15)) } }
    ensures keeps { T.keeps store.old store.new }
{
    for n in 15..nodes {
        let next = following(0, nodes, n);
        set_node_entry(store, NodeId(n), Entry::Free { next });
    }
}

// Makes the entries of nodes 0 to 14 fixed.
#[tactic(auto, using(kn_base::proofs::RowLaws::writes))]
fn fix_nodes<T: Store>(store: &mut T)
    requires sized { Sized (kernel_of (T.memory store.old)) }
    requires rows { 15 ≤ length (kernel_of (T.memory store.old)).node_entries }
    ensures fixed { kernel_of (T.memory store.new) ≡ record (kernel_of (T.memory store.old)) { node_entries = overwritten (kernel_of (T.memory store.old)).node_entries 0 (replicate 15 Fixed) } }
    ensures keeps { T.keeps store.old store.new }
{
    for n in 0..15 {
        set_node_entry(store, NodeId(n), Entry::Fixed);
    }
}

// Key 6 of the root of a domain that is available and has made no call.
fn first_state() -> Key
    ensures { result ≡ state_key 0 0 }
{
    Key::Number([0; 12])
}

// Makes a node the root of the service of its number, which is available.
fn set_service_root<T: Store>(store: &mut T, service: u8)
    requires { service < (kernel_of (T.memory store.old)).nodes }
    ensures rooted { kernel_of (T.memory store.new) ≡ record (kernel_of (T.memory store.old)) { keys = with_service_root (kernel_of (T.memory store.old)).keys service } }
    ensures keeps { T.keeps store.old store.new }
{
    let root = NodeId(service as u32);
    set_key_at(store, root, 0, Key::Service { code: service });
    set_key_at(store, root, 6, first_state());
}

// Makes nodes 1 to 6 the roots of the services.
#[tactic(auto, unfolding(crate::specs::Setup::with_service_roots))]
fn set_service_roots<T: Store>(store: &mut T)
    requires { 7 ≤ (kernel_of (T.memory store.old)).nodes }
    ensures rooted { kernel_of (T.memory store.new) ≡ record (kernel_of (T.memory store.old)) { keys = with_service_roots (kernel_of (T.memory store.old)).keys 6 } }
    ensures keeps { T.keeps store.old store.new }
{
    for others in 0..6 {
        set_service_root(store, others + 1);
    }
}

// Makes inode 0 the console and inode 1 the empty root, which is its own parent and counts as named once.
fn set_first_inodes<T: Store>(store: &mut T)
    requires { Sized (kernel_of (T.memory store.old)) }
    ensures written { let old = kernel_of (T.memory store.old) in kernel_of (T.memory store.new) ≡ record old { inodes = slice_set (slice_set old.inodes 0 (Used console_inode)) 1 (Used empty_root) } }
    ensures keeps { T.keeps store.old store.new }
{
    let console = Inode {
        kind: InodeKind::Console,
        length: 0,
        entries: 0,
        opens: 0,
        root: 0,
        parent: 0,
        start: 0,
    };
    let root = Inode {
        kind: InodeKind::Dir,
        entries: 1,
        parent: 1,
        ..console
    };
    set_inode_entry(store, 0, Row::Used(console));
    set_inode_entry(store, 1, Row::Used(root));
}

// Writes the words of the machine page that are not 0.
fn set_words<T: Store>(store: &mut T, pages: u32, quantum: u32)
    requires sized { Sized (kernel_of (T.memory store.old)) }
    requires size { pages ≤ 16384 }
    ensures written { let old = kernel_of (T.memory store.old) in kernel_of (T.memory store.new) ≡ record old { machine = record old.machine { size = pages; quantum = quantum; next_pid = 1; free_page = first_page pages; free_node = 15 } } }
    ensures keeps { T.keeps store.old store.new }
{
    set_size(store, pages);
    set_quantum(store, quantum);
    set_next_pid(store, 1);
    set_free_page(store, first_bank_page(pages));
    set_free_node(store, 15);
}

// Makes an empty bank of tables of zeros.
#[tactic(auto, using(crate::proofs::EmptyBank::making), unfolding(kernel_tables::specs::Kernel::zero_kernel))]
fn fill<T: Store>(store: &mut T, pages: u32, quantum: u32)
    requires least { 64 ≤ pages }
    requires most { pages ≤ 16384 }
    requires multiple { pages % 64 ≡ 0 }
    requires zeros { kernel_of (T.memory store.old) ≡ zero_kernel pages }
    ensures made { kernel_of (T.memory store.new) ≡ empty_bank pages quantum }
    ensures keeps { T.keeps store.old store.new }
{
    set_words(store, pages, quantum);
    set_first_inodes(store);
    link_pages(store, pages);
    fix_nodes(store);
    link_nodes(store, 4 * pages + 1296);
    set_service_roots(store);
}

/// Makes an empty bank of `pages` pages on a store of zeros that has the size for so many: all its pages and nodes are
/// free, but for the fixed ones. A round has `quantum` turns of each process.
pub fn setup<T: Store>(store: &mut T, pages: u32, quantum: u32)
    requires least { 64 ≤ pages }
    requires most { pages ≤ 16384 }
    requires multiple { pages % 64 ≡ 0 }
    requires some_turns { 1 ≤ quantum }
    requires few_turns { quantum ≤ 10000 }
    requires zeros { T.memory store.old ≡ zero_memory (first_page pages + pages) (node_count pages) }
    ensures made { kernel_of (T.memory store.new) ≡ empty_bank pages quantum }
    ensures good { BankGood (kernel_of (T.memory store.new)) }
    ensures shares { Shares (kernel_of (T.memory store.new)) nothing_outside [] }
    ensures unused { let new = kernel_of (T.memory store.new) in UnusedGood new.page_zero new.other_words }
    ensures nodes { FreshNodes (kernel_of (T.memory store.new)).keys }
    ensures fixed { FixedNodes (kernel_of (T.memory store.new)).keys }
    ensures files { let new = kernel_of (T.memory store.new) in FreshFiles new.inodes new.descriptions }
    ensures unnamed { NoneNamed (kernel_of (T.memory store.new)).keys }
    ensures keeps { T.keeps store.old store.new }
{
    fill(store, pages, quantum);
}
