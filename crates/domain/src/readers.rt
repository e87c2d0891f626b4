//! What is read of a domain, by its root.

pub mod buffer;
pub mod life;
pub mod slots;
pub mod words;

ghost use Rattle.std.specs.Prelude.{◌≡◌, ℕ, ◌≤◌, ◌<◌, true, None, Some, MatchOption};
ghost use Rattle.kn_base.specs.Memory.{Memory};
ghost use Rattle.kernel_tables.specs.Kernel.{Kernel, kernel_of};
ghost use Rattle.kernel_tables.specs.Rows.{domain_rows};
ghost use Rattle.space_bank.specs.Bank.{BankGood};
ghost use Rattle.unix_model.specs.Tables.{at};
ghost use Rattle.domain.specs.Rules.{RowsGood};
ghost use Rattle.domain.specs.Domains.{domains, heads_in};

use super::keys::{phase_by, root_key, segment_in, word, words_in};
use super::types::{Answer, Heads, Phase};
use kn_base::{NodeId, Store};
use unix_model::Request;

/// How far the process is with its turn.
pub fn phase_of<T: Store>(store: &T, root: NodeId) -> Phase
    requires good { BankGood (kernel_of (T.memory store.now)) }
    requires live { (at (domains (kernel_of (T.memory store.now))) root.0).live ≡ true }
    ensures { result ≡ (at (domains (kernel_of (T.memory store.now))) root.0).phase }
{
    phase_by(word(root_key(store, root, 7), 2))
}

/// Whether the process is parked, as 0 or 1, and two words that tell on what.
pub fn mark_words<T: Store>(store: &T, root: NodeId) -> [u32; 3]
    requires good { BankGood (kernel_of (T.memory store.now)) }
    requires live { (at (domains (kernel_of (T.memory store.now))) root.0).live ≡ true }
    ensures { result ≡ (at (domains (kernel_of (T.memory store.now))) root.0).marks }
{
    words_in(root_key(store, root, 12))
}

/// The process's own id and its parent's, its break, and the word that a wait for it answers.
pub fn heads_of<T: Store>(store: &T, root: NodeId) -> Heads
    requires good { BankGood (kernel_of (T.memory store.now)) }
    requires live { (at (domains (kernel_of (T.memory store.now))) root.0).live ≡ true }
    ensures { result ≡ heads_in (at (domains (kernel_of (T.memory store.now))) root.0) }
{
    let [pid, parent, _] = words_in(root_key(store, root, 7));
    let [break_start, break_end, word] = words_in(root_key(store, root, 8));
    Heads {
        pid,
        parent,
        break_start,
        break_end,
        word,
    }
}

/// The request that waits for a server.
pub fn request_of<T: Store>(store: &T, root: NodeId) -> Request
    requires good { BankGood (kernel_of (T.memory store.now)) }
    requires rows { RowsGood (domain_rows (kernel_of (T.memory store.now))) }
    requires live { (at (domains (kernel_of (T.memory store.now))) root.0).live ≡ true }
    ensures { result ≡ (at (domains (kernel_of (T.memory store.now))) root.0).request }
{
    let [call, first, second] = words_in(root_key(store, root, 9));
    let [third, fourth, length] = words_in(root_key(store, root, 10));
    Request {
        call: call as u8,
        args: [first, second, third, fourth],
        length: length as u16,
    }
}

/// The answer that waits for the process.
pub fn answer_of<T: Store>(store: &T, root: NodeId) -> Answer
    requires good { BankGood (kernel_of (T.memory store.now)) }
    requires rows { RowsGood (domain_rows (kernel_of (T.memory store.now))) }
    requires live { (at (domains (kernel_of (T.memory store.now))) root.0).live ≡ true }
    ensures { result ≡ (at (domains (kernel_of (T.memory store.now))) root.0).answer }
{
    let [value, at, length] = words_in(root_key(store, root, 11));
    Answer {
        value,
        at,
        length: length as u16,
    }
}

/// The space of the process, or None where its memory is given back.
pub fn space_of<T: Store>(store: &T, root: NodeId) -> Option<NodeId>
    requires good { BankGood (kernel_of (T.memory store.now)) }
    requires live { (at (domains (kernel_of (T.memory store.now))) root.0).live ≡ true }
    ensures { let space = (at (domains (kernel_of (T.memory store.now))) root.0).space in MatchOption result (space ≡ None) (λ node. space ≡ Some node.0) }
{
    segment_in(root_key(store, root, 0))
}
