//! Text between quotes.

ghost use Rattle.std.specs.Prelude.{◌≡◌, ◌<◌, ◌≤◌, ◌++◌, false, true, length, option_map, MatchOption, IfSome, IsSome, OnOk};
ghost use Rattle.rv_asm.specs.Operands as model;
ghost use Rattle.rv_asm.specs.Operands.{ending, text_from, with_byte};
ghost use Rattle.rv_asm.specs.Views.{text_in};

use std::alloc::AllocError;

/// How many bytes the text behind an opening quote has; None where it is no text.
pub fn text_length(behind: &[u8]) -> Option<usize>
    ensures count { result ≡ option_map (λ bytes. length bytes) (text_from false behind.now) }
    ensures short { IfSome result (λ count. count < length behind.now) }
{
    let mut rest = behind;
    let mut count = 0;
    'bytes: loop {
        match next_byte(rest) {
            Some((_, after)) => {
                count += 1;
                rest = after;
            }
            None => break 'bytes,
        }
    }
    match rest {
        [b'"'] => Some(count),
        _ => None,
    }
}

/// Appends the text behind an opening quote.
///
/// # Errors
///
/// Out of memory. A part of the text may then have been appended.
pub fn push_text(behind: &[u8], into: &mut Vec<u8>) -> Result<(), AllocError>
    requires { IsSome (text_from false behind.now) }
    ensures { OnOk result (into.new.items ≡ into.old.items ++ text_in behind.now) }
{
    let mut rest = behind;
    'bytes: loop {
        match next_byte(rest) {
            Some((byte, after)) => {
                into.push(byte)?;
                rest = after;
            }
            None => return Ok(()),
        }
    }
}

/// The first byte of the text behind an opening quote, and what follows it; None at the closing quote, and where it is no
/// text.
#[tactic(auto, unfolding(crate::specs::Operands::text_from))]
fn next_byte(text: &[u8]) -> Option<(u8, &[u8])>
    ensures next { MatchOption result (text_from false text.now ≡ ending text.now)
        (λ next. text_from false text.now ≡ with_byte (Some next.0) (text_from false next.1.now)) }
    ensures shorter { IfSome result (λ next. length next.1.now < length text.now) }
{
    match text {
        [] | [b'"', ..] => None,
        [b'\\', rest @ ..] => escaped_byte(rest),
        [byte, rest @ ..] => {
            if is_printable(*byte) {
                Some((*byte, rest))
            } else {
                None
            }
        }
    }
}

/// The byte that stands behind a `\`, and what follows it.
#[tactic(auto, unfolding(crate::specs::Operands::text_from))]
fn escaped_byte(text: &[u8]) -> Option<(u8, &[u8])>
    ensures next { MatchOption result (text_from true text.now ≡ None)
        (λ next. text_from true text.now ≡ with_byte (Some next.0) (text_from false next.1.now)) }
    ensures shorter { IfSome result (λ next. length next.1.now < length text.now) }
{
    match text {
        [] => None,
        [byte, rest @ ..] => match escaped(*byte) {
            Some(byte) => Some((byte, rest)),
            None => None,
        },
    }
}

/// The byte that stands for itself behind a `\`, or for a line feed.
fn escaped(byte: u8) -> Option<u8>
    ensures { result ≡ model.escaped byte }
{
    match byte {
        b'n' => Some(b'\n'),
        b'\\' | b'"' => Some(byte),
        _ => None,
    }
}

/// Printable ASCII.
fn is_printable(byte: u8) -> bool
    ensures { result ≡ model.is_printable byte }
{
    b' ' <= byte && byte <= b'~'
}
