//! The stack of a program is put into its space.

ghost use Rattle.std.specs.Prelude.{◌≡◌, ℕ, ◌+◌, ◌≤◌, ◌^◌, List, [], length};
ghost use Rattle.kn_base.specs.Memory.{Memory, zero_page};
ghost use Rattle.kernel_tables.specs.Kernel.{Kernel, kernel_of};
ghost use Rattle.space_bank.specs.Bank.{BankGood};
ghost use Rattle.space_bank.specs.Shares.{Outside};
ghost use Rattle.unix_model.specs.Loading.{stack_bytes, stack_pointer};
ghost use Rattle.forest.specs.Forest.{IsSpace};
ghost use Rattle.kernel_forest.specs.Trees.{forest_of, TreesGood};
ghost use Rattle.user_copy.specs.SpaceMemory.{space_memory};
ghost use Rattle.user_copy.specs.Writing.{PutsBytes};
ghost use Rattle.seg_tree.specs.Blocks.{ChangesAtMost};
ghost use Rattle.unix_exec.specs.Start.{AreStrings, HasStackPages, IsStackWritable};

use super::stack::start_bytes;
use kn_base::Store;
use seg_tree::Space;
use user_copy::put_bytes;

/// Puts the stack of a program with these strings, at most 16 of at most 4,096 bytes with the NUL after each, into a space whose
/// stack may be written. The answer is the stack pointer. It takes at most eight nodes, and as many pages as `put_bytes` would.
pub fn put_start<T: Store>(store: &mut T, space: Space, count: u8, strings: &[u8]) -> u32
    requires good { BankGood (kernel_of (T.memory store.old)) }
    requires trees { (outside : Outside) × TreesGood (kernel_of (T.memory store.old)) outside [] }
    requires space { IsSpace (forest_of (kernel_of (T.memory store.old))) [] space.0.0 }
    requires zero { (kernel_of (T.memory store.old)).page_zero ≡ zero_page }
    requires strings { (list : List (List ℕ)) × AreStrings strings.now count list }
    requires few { count ≤ 16 }
    requires short { length strings.now ≤ 4096 }
    requires stack { IsStackWritable (space_memory (kernel_of (T.memory store.old)) space.0.0) }
    requires room { let old = kernel_of (T.memory store.old) in old.machine.nodes_taken + 23 ≤ old.nodes }
    requires page_room { (list : List (List ℕ)) → AreStrings strings.now count list → HasStackPages (kernel_of (T.memory store.old)) space.0.0 list }
    ensures pointer { (list : List (List ℕ)) → AreStrings strings.now count list → result ≡ stack_pointer list }
    ensures put { (list : List (List ℕ)) → AreStrings strings.now count list → PutsBytes (kernel_of (T.memory store.old)) (kernel_of (T.memory store.new)) space.0.0 (stack_pointer list) (stack_bytes list) }
    ensures good { BankGood (kernel_of (T.memory store.new)) }
    ensures blocks { ChangesAtMost (T.blocks store.old) (T.blocks store.new) 180 }
    ensures keeps { T.keeps store.old store.new }
{
    let bytes = start_bytes(count, strings);
    let pointer = 0x8000_0000 - bytes.len() as u32;
    put_bytes(store, space, pointer, bytes.as_slice());
    pointer
}
