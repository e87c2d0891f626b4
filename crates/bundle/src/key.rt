//! Paths as the keys of a map.

ghost use Rattle.std.specs.Prelude.{◌≡◌, ◌≤◌, ◌∷◌, [], length, bytes_eq, IfOk};
ghost use Rattle.std.specs.Cmp.{partial_equiv_from_equiv, on_per, on_equiv};
ghost use Rattle.std.specs.Cmp.Lexicographic.{bytes_decides, nat_list_eq_equiv};
ghost use Rattle.std.proofs.Common.{ap};

use smallvec::SmallVec;
use std::alloc::{AllocError, Global};
use std::hash::{Hash, Hasher};

/// The most bytes of a path that may be taken.
const MOST_PATH_BYTES: usize = 255;

/// A path, which takes no piece of host memory where it has at most 40 bytes. It is hashed as a whole, and not byte by byte.
#[derive(Drop)]
pub struct Key {
    bytes: SmallVec<u8, 40>,
}

impl Key {
    /// This path.
    pub fn new(alloc: Global, path: &[u8]) -> Result<Key, AllocError>
        ensures { IfOk result (λ key. key.bytes.items ≡ path.now) }
    {
        let bytes = SmallVec::from_slice(alloc, path)?;
        Ok(Key { bytes })
    }

    /// The empty path, with room for any.
    pub fn with_room(alloc: Global) -> Result<Key, AllocError>
        ensures empty { IfOk result (λ key. key.bytes.items ≡ []) }
        ensures room { IfOk result (λ key. 255 ≤ key.bytes.capacity) }
    {
        let bytes = SmallVec::with_capacity(alloc, MOST_PATH_BYTES)?;
        Ok(Key { bytes })
    }

    /// Another path, where there is room for any.
    pub fn set(&mut self, path: &[u8])
        requires room { 255 ≤ self.old.bytes.capacity }
        requires fits { length path.now ≤ 255 }
        ensures path { self.new.bytes.items ≡ path.now }
        ensures room { 255 ≤ self.new.bytes.capacity }
    {
        self.bytes.clear();
        self.bytes.extend_from_slice(path).unwrap();
    }

    /// The path.
    pub fn as_slice(&self) -> &[u8]
        ensures { result.now ≡ self.now.bytes.items }
    {
        self.bytes.as_slice()
    }
}

impl PartialEq for Key {
    ghost eq = { λ x y. bytes_eq x.bytes.items y.bytes.items };

    ghost laws = { on_per (λ x. x.bytes.items) (partial_equiv_from_equiv nat_list_eq_equiv) };

    fn eq(&self, other: &Key) -> bool {
        self.as_slice() == other.as_slice()
    }
}

impl Eq for Key {
    ghost laws = { on_equiv (λ x. x.bytes.items) nat_list_eq_equiv };
}

impl Hash for Key {
    ghost hash_input = { λ key. key.bytes.items ∷ [] };

    ghost respects_eq = { λ x y same. ap (λ bytes. bytes ∷ []) ((bytes_decides x.bytes.items y.bytes.items).0 same) };

    fn hash<H: Hasher>(&self, state: &mut H) {
        state.write(self.as_slice());
    }
}
