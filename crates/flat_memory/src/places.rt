//! Tables of places, each with something in it or nothing.

ghost use Rattle.std.specs.Prelude.{◌≡◌, ℕ, IfOk, None, length, slice_index_or};

use std::alloc::{AllocError, Global};

/// So many places with nothing in them.
#[tactic(auto, using(crate::proofs::PlaceLaws::places))]
pub fn free_places<T: Drop>(alloc: Global, count: usize) -> Result<Vec<Option<T>>, AllocError>
    ensures len { IfOk result (λ places. length places.items ≡ count) }
    ensures free { IfOk result (λ places. (k : ℕ) → slice_index_or places.items k None ≡ None) }
{
    let mut places = Vec::with_capacity(alloc, count)?;
    for _ in 0..count {
        places.push(None)?;
    }
    Ok(places)
}
