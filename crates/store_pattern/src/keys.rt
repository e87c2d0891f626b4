//! Loops over the keys of a node.

ghost use Rattle.std.specs.Prelude.{◌≡◌, ◌≢◌, ◌<◌, ◌≤◌, ◌+◌, ◌*◌, ℕ, Some, IsSome, length, replicate};
ghost use Rattle.kn_base.specs.declared.key.Key.TheVariants.{Null};
ghost use Rattle.kn_base.specs.Rows.{part_at, overwritten};
ghost use Rattle.kn_base.specs.Memory.{Memory, key_at};

use kn_base::{Key, NodeId, Store};

/// Makes all sixteen keys of a node Null.
#[tactic(auto, using(kn_base::proofs::RowLaws::writes))]
pub fn clear_node<T: Store>(store: &mut T, node: NodeId)
    requires { 16 * node.0 + 16 ≤ length (T.memory store.old).keys }
    ensures cleared { T.memory store.new ≡ record (T.memory store.old) { keys = overwritten (T.memory store.old).keys (16 * node.0) (replicate 16 (Some Null)) } }
    ensures keeps { T.keeps store.old store.new }
{
    for place in 0..16 {
        store.set_key(node, place, Key::Null);
    }
}

/// Copies the sixteen keys of a node over those of another one.
#[tactic(auto, using(kn_base::proofs::RowLaws::writes))]
pub fn copy_node<T: Store>(store: &mut T, from: NodeId, to: NodeId)
    requires from { 16 * from.0 + 16 ≤ length (T.memory store.old).keys }
    requires to { 16 * to.0 + 16 ≤ length (T.memory store.old).keys }
    requires two_nodes { from.0 ≢ to.0 }
    requires spelled { (place : ℕ) → place < 16 → IsSome (key_at (T.memory store.old) from.0 place) }
    ensures copied { T.memory store.new ≡ record (T.memory store.old) { keys = overwritten (T.memory store.old).keys (16 * to.0) (part_at (T.memory store.old).keys (16 * from.0) 16) } }
    ensures keeps { T.keeps store.old store.new }
{
    for place in 0..16 {
        let key = store.key(from, place);
        store.set_key(to, place, key);
    }
}
