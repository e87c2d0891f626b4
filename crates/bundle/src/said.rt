//! What one line of a bundle says.

ghost use Rattle.std.specs.Prelude.{◌≡◌, ◌≤◌, ◌<◌, [], ◌∷◌, true, length, position, slice_index, option_map, IfSome, IfNone, None};
ghost use Rattle.unix_model.specs.Texts as texts;
ghost use Rattle.userland.specs.Programs.{source_named};
ghost use Rattle.bundle.specs.EntryLines as model;
ghost use Rattle.bundle.specs.Views.{halves_view, said_view, AreFew, what_view};

use crate::entry::Bytes;
use kn_text::number_of;
use userland::program;

/// The most lines behind an entry line.
const MOST_LINES: u64 = 100_000;

/// How the lines behind an entry line are read.
#[derive(Clone, Copy, Debug, PartialEq, Eq)]
pub enum Form {
    /// As they are.
    Text,
    /// As hexadecimal digits.
    Hex,
    /// As a source of the assembler.
    Asm,
}

/// What an entry is to be made from.
#[derive(Clone, Copy)]
pub enum What {
    /// Nothing: it is a directory.
    Directory,
    /// The lines that follow.
    Part { form: Form, lines: u32 },
    /// A source of the userland.
    Program { source: &'static [u8] },
}

impl What {
    /// Whether it is to be a directory.
    pub fn is_directory(self) -> bool
        ensures { result ≡ model.makes_directory (what_view self) }
    {
        match self {
            What::Directory => true,
            What::Part { .. } => false,
            What::Program { .. } => false,
        }
    }
}

/// An entry's path, and what it is to be made from.
#[derive(Drop)]
pub struct Named {
    pub path: Bytes,
    pub what: What,
}

/// What an entry line says.
#[derive(Clone, Copy)]
pub struct Said<'a> {
    pub path: &'a [u8],
    pub what: What,
}

/// The entry that a line says, or None where it says none.
#[tactic(auto, unfolding(crate::specs::EntryLines::said))]
pub fn entry_line(line: &[u8]) -> Option<Said<'_>>
    ensures says { option_map said_view result ≡ model.said line.now }
    ensures few { IfSome result (λ told. AreFew told.what) }
{
    match halves_of(line) {
        Some((first, operands)) => said_by(first, operands),
        None => None,
    }
}

// The entry of a line's first word and what follows it.
#[tactic(auto, unfolding(crate::specs::EntryLines::said_by))]
fn said_by<'a>(first: &[u8], operands: &'a [u8]) -> Option<Said<'a>>
    ensures says { option_map said_view result ≡ model.said_by first.now operands.now }
    ensures few { IfSome result (λ told. AreFew told.what) }
{
    match first {
        b"dir" => dir_line(operands),
        b"text" => part_line(Form::Text, operands),
        b"hex" => part_line(Form::Hex, operands),
        b"asm" => part_line(Form::Asm, operands),
        b"user" => user_line(operands),
        _ => None,
    }
}

// A directory.
#[tactic(auto, unfolding(crate::specs::EntryLines::dir_line))]
fn dir_line(operands: &[u8]) -> Option<Said<'_>>
    ensures says { option_map said_view result ≡ model.dir_line operands.now }
    ensures few { IfSome result (λ told. AreFew told.what) }
{
    match word(operands) {
        Some(path) => Some(Said {
            path,
            what: What::Directory,
        }),
        None => None,
    }
}

// A file whose lines follow.
#[tactic(auto, unfolding(crate::specs::EntryLines::part_line, crate::specs::EntryLines::word))]
fn part_line(form: Form, operands: &[u8]) -> Option<Said<'_>>
    ensures says { option_map said_view result ≡ model.part_line form operands.now }
    ensures few { IfSome result (λ told. AreFew told.what) }
{
    let (path, behind) = match operand_halves(operands) {
        Some(halves) => halves,
        None => return None,
    };
    if path.is_empty() {
        return None;
    }
    match line_count(behind) {
        Some(lines) => Some(Said {
            path,
            what: What::Part { form, lines },
        }),
        None => None,
    }
}

// A program of the userland.
#[tactic(auto, unfolding(crate::specs::EntryLines::user_line, crate::specs::EntryLines::word))]
fn user_line(operands: &[u8]) -> Option<Said<'_>>
    ensures says { option_map said_view result ≡ model.user_line operands.now }
    ensures few { IfSome result (λ told. AreFew told.what) }
{
    let (path, behind) = match operand_halves(operands) {
        Some(halves) => halves,
        None => return None,
    };
    if path.is_empty() {
        return None;
    }
    match program(behind) {
        Some(source) => Some(Said {
            path,
            what: What::Program { source },
        }),
        None => None,
    }
}

// How many lines follow.
fn line_count(text: &[u8]) -> Option<u32>
    ensures value { result ≡ texts.number_of 100000 text.now }
    ensures most { IfSome result (λ lines. lines ≤ 100000) }
{
    match text {
        [digit] => digit_value(*digit),
        _ => match number_of(text, MOST_LINES) {
            Ok(number) => Some(number as u32),
            Err(_) => None,
        },
    }
}

// The number that one digit spells.
fn digit_value(digit: u8) -> Option<u32>
    ensures value { result ≡ texts.number_of 100000 (digit ∷ []) }
    ensures most { IfSome result (λ value. value ≤ 9) }
{
    if digit.is_ascii_digit() {
        Some(u32::from(digit - b'0'))
    } else {
        None
    }
}

// What stands before and behind the first space.
#[tactic(auto, using(crate::proofs::WordLaws::no_space))]
fn halves_of(text: &[u8]) -> Option<(&[u8], &[u8])>
    ensures halves { option_map halves_view result ≡ model.halves_of text.now }
    ensures front { IfSome result (λ halves. position model.is_space halves.0.now ≡ None) }
{
    match first_space(text) {
        Some(at) => Some((&text[..at], &text[at + 1..])),
        None => None,
    }
}

// The same. The space is looked for from the end, since what follows a path is short.
#[tactic(auto, using(crate::proofs::WordLaws::no_space))]
fn operand_halves(text: &[u8]) -> Option<(&[u8], &[u8])>
    ensures halves { option_map halves_view result ≡ model.halves_of text.now }
    ensures front { IfSome result (λ halves. position model.is_space halves.0.now ≡ None) }
{
    match space_from_end(text) {
        Some(at) => Some((&text[..at], &text[at + 1..])),
        None => None,
    }
}

// Where the first space stands, which is mostly the last.
fn space_from_end(text: &[u8]) -> Option<usize>
    ensures place { result ≡ position model.is_space text.now }
    ensures inside { IfSome result (λ at. at < length text.now) }
{
    match last_space(text) {
        Some(at) => {
            if text[..at].contains(&b' ') {
                first_space(text)
            } else {
                Some(at)
            }
        }
        None => None,
    }
}

// Where the last space stands.
fn last_space(text: &[u8]) -> Option<usize>
    ensures there { IfSome result (λ at. model.is_space (slice_index text.now at) ≡ true) }
    ensures inside { IfSome result (λ at. at < length text.now) }
    ensures none { IfNone result (position model.is_space text.now ≡ None) }
{
    let mut end = text.len();
    'looking: while 0 < end {
        end -= 1;
        if text[end] == b' ' {
            return Some(end);
        }
    }
    None
}

// Where the first space stands.
fn first_space(text: &[u8]) -> Option<usize>
    ensures place { result ≡ position model.is_space text.now }
    ensures inside { IfSome result (λ at. at < length text.now) }
{
    text.iter().position(|byte| *byte == b' ')
}

// One word: some bytes without a space.
#[tactic(auto, unfolding(crate::specs::EntryLines::word))]
fn word(text: &[u8]) -> Option<&[u8]>
    ensures { option_map (λ told. told.now) result ≡ model.word text.now }
{
    if text.is_empty() || first_space(text).is_some() {
        return None;
    }
    Some(text)
}
