//! Bytes as texts, each of which ends with a NUL.

ghost use Rattle.std.specs.Prelude.{◌≡◌, ◌≤◌, IfOk, length};
ghost use Rattle.unix_model.specs.Loading.{string_bytes};
ghost use Rattle.flat_memory.specs.StringsView.{strings_of};
ghost use Rattle.flat_texts.specs.Texts.{texts_in};

use std::alloc::{AllocError, Global};

/// The texts of these bytes, each without its NUL; bytes after the last NUL are no text.
pub fn split_texts(alloc: Global, bytes: &[u8]) -> Result<Vec<Vec<u8>>, AllocError>
    ensures texts { IfOk result (λ texts. strings_of texts.items ≡ texts_in bytes.now) }
    ensures few { IfOk result (λ texts. length (string_bytes (strings_of texts.items)) ≤ length bytes.now) }
{
    let mut texts = Vec::new(alloc);
    let mut text = Vec::new(alloc);
    for byte in bytes {
        if *byte == 0 {
            texts.push(text)?;
            text = Vec::new(alloc);
        } else {
            text.push(*byte)?;
        }
    }
    Ok(texts)
}
