//! One line of a schedule.

ghost use Rattle.std.specs.Prelude.{◌≡◌, ◌^◌, ◌≤◌, ◌<◌, length, position, IfSome};
ghost use Rattle.unix_model.specs.Texts as texts;
ghost use Rattle.plan.specs.Plans as model;

use kn_text::number_of;

/// The number of the last slot.
const LAST_SLOT: u64 = 63;

/// The most turns that a line gives.
const MOST_TURNS: u64 = 1_000_000_000;

/// The most lines that a schedule has.
const MOST_LINES: u32 = 65_536;

/// Turns in a row of one slot.
#[derive(Clone, Copy, Debug, PartialEq, Eq)]
pub struct Span {
    /// The slot, from 0 to 63.
    pub slot: u8,
    /// How many turns, from 1 to 1,000,000,000.
    pub turns: u32,
}

/// The span that the line with this number says, or None where it is refused.
#[tactic(auto, unfolding(crate::specs::Plans::numbered_span))]
pub fn numbered_span(number: u32, line: &[u8]) -> Option<Span>
    requires short { length line.now ≤ 1024 }
    ensures value { result ≡ model.numbered_span number line.now }
    ensures few { IfSome result (λ span. number ≤ 65536) }
    ensures inside { IfSome result model.IsInside }
{
    if MOST_LINES < number {
        return None;
    }
    span_of(line)
}

/// The span that a line says.
fn span_of(line: &[u8]) -> Option<Span>
    ensures value { result ≡ model.span_of line.now }
    ensures inside { IfSome result model.IsInside }
{
    match first_space(line) {
        Some(at) => span_told(
            number(&line[..at], LAST_SLOT),
            number(&line[at + 1..], MOST_TURNS),
        ),
        None => None,
    }
}

// Where the first space stands.
fn first_space(line: &[u8]) -> Option<usize>
    ensures place { result ≡ position model.is_space line.now }
    ensures inside { IfSome result (λ at. at < length line.now) }
{
    line.iter().position(|byte| *byte == b' ')
}

// The span of a slot and a number of turns, where both are there.
fn span_told(slot: Option<u64>, turns: Option<u64>) -> Option<Span>
    requires slot { IfSome slot (λ n. n < 64) }
    requires turns { IfSome turns (λ n. n < 2 ^ 32) }
    ensures value { result ≡ model.span_told slot turns }
    ensures inside { IfSome result model.IsInside }
{
    match (slot, turns) {
        (Some(slot), Some(turns)) => {
            if turns == 0 {
                return None;
            }
            Some(Span {
                slot: slot as u8,
                turns: turns as u32,
            })
        }
        _ => None,
    }
}

// The number that a text spells, where it is at most so much.
fn number(text: &[u8], most: u64) -> Option<u64>
    ensures value { result ≡ texts.number_of most text.now }
    ensures most { IfSome result (λ n. n ≤ most) }
{
    match number_of(text, most) {
        Ok(number) => Some(number),
        Err(_) => None,
    }
}
