//! The texts that a call brings.

ghost use Rattle.std.specs.Prelude.{◌≡◌, ◌≤◌, [], IfOk, drop, length, slice_index_or};
ghost use Rattle.unix_model.specs.Effect.{texts_of};
ghost use Rattle.unix_model.specs.Loading.{string_bytes};
ghost use Rattle.flat_memory.specs.StringsView.{strings_of};
ghost use Rattle.flat_state.specs.ProcessView.{sent_call_of};

use flat_state::SentCall;
use flat_texts::split_texts;
use std::alloc::{AllocError, Global};

/// The texts of a call, each without its NUL.
#[tactic(auto, unfolding(unix_model::specs::Effect::texts_of, flat_texts::specs::Texts::texts_in))]
pub(crate) fn texts(alloc: Global, sent: &SentCall) -> Result<Vec<Vec<u8>>, AllocError>
    ensures texts { IfOk result (λ texts. strings_of texts.items ≡ texts_of (sent_call_of sent.now)) }
    ensures few { IfOk result (λ texts. length (string_bytes (strings_of texts.items)) ≤ 4096) }
{
    split_texts(alloc, &sent.bytes)
}

/// A text by its number; one that isn't there is empty.
pub(crate) fn text(texts: &[Vec<u8>], number: usize) -> &[u8]
    ensures { result.now ≡ slice_index_or (strings_of texts.now) number [] }
{
    match texts.get(number) {
        Some(text) => text.as_slice(),
        None => &[],
    }
}

/// All texts but the first.
pub(crate) fn rest(texts: &[Vec<u8>]) -> &[Vec<u8>]
    ensures rest { strings_of result.now ≡ drop 1 (strings_of texts.now) }
    ensures few { length (string_bytes (strings_of result.now)) ≤ length (string_bytes (strings_of texts.now)) }
{
    if texts.is_empty() { texts } else { &texts[1..] }
}
