//! The parts of a line.

ghost use Rattle.std.specs.Prelude.{◌≡◌, ◌<◌, ◌≤◌, length, position, option_map, IfSome};
ghost use Rattle.rv_asm.specs.Letters as letters;
ghost use Rattle.rv_asm.specs.Lines as model;
ghost use Rattle.rv_asm.specs.Views.{parts_view};

use crate::letters::{first_blank, first_other, is_blank};

/// The parts of a line.
#[derive(Clone, Copy)]
pub struct Parts<'a> {
    /// The name before the colon, where there is one.
    pub label: Option<&'a [u8]>,
    pub statement: &'a [u8],
}

/// A text without the blanks at its front.
#[tactic(auto, unfolding(crate::specs::Lines::without_front))]
pub fn without_front(text: &[u8]) -> &[u8]
    ensures value { result.now ≡ model.without_front text.now }
    ensures shorter { length result.now ≤ length text.now }
{
    let mut rest = text;
    while let [first, after @ ..] = rest {
        if !is_blank(*first) {
            return rest;
        }
        rest = after;
    }
    rest
}

/// A text without the blanks at its end.
#[tactic(auto, using(crate::proofs::LineLaws::endings))]
pub fn without_end(text: &[u8]) -> &[u8]
    ensures value { result.now ≡ model.without_end text.now }
    ensures shorter { length result.now ≤ length text.now }
{
    let mut rest = text;
    while let [before @ .., last] = rest {
        if !is_blank(*last) {
            return rest;
        }
        rest = before;
    }
    rest
}

/// A text without the blanks at its front and its end.
pub fn trimmed(text: &[u8]) -> &[u8]
    ensures value { result.now ≡ model.trimmed text.now }
    ensures shorter { length result.now ≤ length text.now }
{
    without_end(without_front(text))
}

/// The bytes of names at the front, and what follows.
pub fn name_and_rest(text: &[u8]) -> (&[u8], &[u8])
    ensures name { result.0.now ≡ model.front text.now (position letters.is_other text.now) }
    ensures rest { result.1.now ≡ model.back text.now (position letters.is_other text.now) }
{
    match first_other(text) {
        Some(place) => text.split_at(place),
        None => (text, &[]),
    }
}

/// Where a byte of a line stands.
#[derive(Clone, Copy)]
pub enum Quoting {
    /// Outside of quotes.
    Outside,
    /// Between quotes.
    Inside,
    /// Between quotes, behind a `\`.
    Escaped,
}

/// Where the byte behind this one stands.
fn after_byte(quoting: Quoting, byte: u8) -> Quoting
    ensures { result ≡ model.after_byte quoting byte }
{
    match (quoting, byte) {
        (Quoting::Outside, b'"') => Quoting::Inside,
        (Quoting::Outside, _) => Quoting::Outside,
        (Quoting::Inside, b'"') => Quoting::Outside,
        (Quoting::Inside, b'\\') => Quoting::Escaped,
        (Quoting::Inside | Quoting::Escaped, _) => Quoting::Inside,
    }
}

/// Whether a comment begins at this byte.
fn begins_comment(quoting: Quoting, byte: u8) -> bool
    ensures { result ≡ model.begins_comment quoting byte }
{
    match quoting {
        Quoting::Outside => byte == b'#',
        Quoting::Inside | Quoting::Escaped => false,
    }
}

/// What stands before the comment: before the first `#` outside of quotes.
#[tactic(auto, using(crate::proofs::LineLaws::comments))]
pub fn before_comment(line: &[u8]) -> &[u8]
    ensures value { result.now ≡ model.before_comment Quoting.Outside line.now }
    ensures shorter { length result.now ≤ length line.now }
{
    let mut quoting = Quoting::Outside;
    for (place, byte) in line.iter().enumerate() {
        if begins_comment(quoting, *byte) {
            return &line[..place];
        }
        quoting = after_byte(quoting, *byte);
    }
    line
}

/// The label of a text, where a colon follows the bytes of names at its front, and the statement behind it.
fn split_label<'a>(text: &'a [u8]) -> Parts<'a>
    ensures value { parts_view result ≡ model.split_label text.now }
    ensures shorter { length result.statement.now ≤ length text.now }
{
    let (name, rest) = name_and_rest(text);
    match rest {
        [b':', statement @ ..] => Parts {
            label: Some(name),
            statement: without_front(statement),
        },
        _ => Parts {
            label: None,
            statement: text,
        },
    }
}

/// The label of a line and its statement, without its comment and the blanks at its ends.
#[tactic(auto, unfolding(crate::specs::Lines::parts_of))]
pub fn parts_of<'a>(line: &'a [u8]) -> Parts<'a>
    ensures value { parts_view result ≡ model.parts_of line.now }
    ensures shorter { length result.statement.now ≤ length line.now }
{
    split_label(trimmed(before_comment(line)))
}

/// The word of a statement, and its operands.
#[tactic(auto, unfolding(crate::specs::Lines::without_front))]
pub fn word_and_operands(statement: &[u8]) -> (&[u8], &[u8])
    ensures word { result.0.now ≡ model.word_of statement.now }
    ensures operands { result.1.now ≡ model.operands_of statement.now }
    ensures shorter { length result.1.now ≤ length statement.now }
{
    match first_blank(statement) {
        Some(place) => (&statement[..place], without_front(&statement[place..])),
        None => (statement, &[]),
    }
}

/// Where the first comma stands.
fn first_comma(text: &[u8]) -> Option<usize>
    ensures place { result ≡ position model.is_comma text.now }
    ensures inside { IfSome result (λ place. place < length text.now) }
{
    text.iter().position(|byte| *byte == b',')
}

/// The only operand: a text without a comma, and without the blanks at its ends.
pub fn one_operand(text: &[u8]) -> Option<&[u8]>
    ensures { option_map (λ operand. operand.now) result ≡ model.one_operand text.now }
{
    match first_comma(text) {
        Some(_) => None,
        None => Some(trimmed(text)),
    }
}

/// The first operand, and what follows its comma; None where there is no comma.
#[tactic(auto, unfolding(crate::specs::Lines::first_operand))]
fn first_operand(text: &[u8]) -> Option<(&[u8], &[u8])>
    ensures { option_map (λ parts. (parts.0.now, parts.1.now)) result ≡ model.first_operand text.now }
{
    match first_comma(text) {
        Some(comma) => Some((trimmed(&text[..comma]), &text[comma + 1..])),
        None => None,
    }
}

/// Two operands and no more.
#[tactic(auto, unfolding(crate::specs::Lines::two_operands))]
pub fn two_operands(text: &[u8]) -> Option<(&[u8], &[u8])>
    ensures { option_map (λ parts. (parts.0.now, parts.1.now)) result ≡ model.two_operands text.now }
{
    let (first, rest) = first_operand(text)?;
    let second = one_operand(rest)?;
    Some((first, second))
}

/// Three operands and no more.
#[tactic(auto, unfolding(crate::specs::Lines::three_operands))]
pub fn three_operands(text: &[u8]) -> Option<(&[u8], &[u8], &[u8])>
    ensures { option_map (λ parts. (parts.0.now, parts.1.now, parts.2.now)) result ≡ model.three_operands text.now }
{
    let (first, rest) = first_operand(text)?;
    let (second, third) = two_operands(rest)?;
    Some((first, second, third))
}
