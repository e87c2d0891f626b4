//! Tests of single keys.

ghost use Rattle.std.specs.Prelude.{◌≡◌, ℕ, ◌%◌, ◌==◌, ◌&&◌, ◌||◌, nat_lt, nat_le, if◌then◌else◌};
ghost use Rattle.domain.specs.Keys.{is_number, word_in};
ghost use Rattle.domain.specs.Tests.{has_ended, is_sent, is_done, is_null, is_space, is_keeper, is_meter_of, is_resume, are_zero, is_held, in_bounds, fits_space, fits_life, fits_ids, fits_break, fits_call, fits_rest, fits_answer, fits_marks, fits_buffer, fits_room, needs_buffer};

use super::super::keys::{state_number, word};
use super::super::types::Phase;
use super::phases::{has_ended, is_done, is_sent, is_zombie, state_for, waits};
use kn_base::{Key, NodeId};

/// Whether both hold.
pub fn both(one: bool, other: bool) -> bool
    ensures { result ≡ (one && other) }
{
    one && other
}

/// Whether a key is Null.
pub fn is_null(key: Key) -> bool
    ensures { result ≡ is_null key }
{
    match key {
        Key::Null => true,
        _ => false,
    }
}

/// Whether a key is a number.
pub fn is_number(key: Key) -> bool
    ensures { result ≡ is_number key }
{
    match key {
        Key::Number(_) => true,
        _ => false,
    }
}

/// Whether a key is that of a page.
fn is_held(key: Key) -> bool
    ensures { result ≡ is_held key }
{
    match key {
        Key::Page { .. } => true,
        _ => false,
    }
}

// Whether a key is that of a space.
fn is_space(key: Key) -> bool
    ensures { result ≡ is_space key }
{
    match key {
        Key::Segment { height, .. } => height == 5,
        _ => false,
    }
}

/// Whether a key is the keeper's Start key with a slot.
pub fn is_keeper(slot: u8, key: Key) -> bool
    ensures { result ≡ is_keeper slot key }
{
    match key {
        Key::Start { domain, byte } => domain.0 == 1 && byte == slot,
        _ => false,
    }
}

/// Whether a key is the Meter key of a slot.
pub fn is_meter_of(slot: u8, key: Key) -> bool
    ensures { result ≡ is_meter_of slot key }
{
    match key {
        Key::Meter { slot: number } => number == slot,
        _ => false,
    }
}

// Whether a key is the Resume key of a root and a count of its calls.
fn is_resume(root: NodeId, count: u64, key: Key) -> bool
    ensures { result ≡ is_resume root.0 count key }
{
    match key {
        Key::Resume {
            domain,
            count: calls,
        } => domain.0 == root.0 && calls == count,
        _ => false,
    }
}

// Whether the three words of a number are zero.
fn are_zero(key: Key) -> bool
    ensures { result ≡ are_zero key }
{
    let (first, second, third) = (word(key, 0), word(key, 1), word(key, 2));
    first == 0 && (second == 0 && third == 0)
}

/// Whether key 0 of a root is right in a phase.
pub fn fits_space(phase: Phase, key: Key) -> bool
    ensures { result ≡ fits_space phase key }
{
    if is_zombie(phase) {
        is_null(key)
    } else {
        is_space(key)
    }
}

/// Whether key 6 of a root is right in a phase.
pub fn fits_life(phase: Phase, key: Key) -> bool
    ensures { result ≡ fits_life phase key }
{
    both(
        is_number(key),
        word(key, 0) == state_number(state_for(phase)),
    )
}

/// Whether key 7 of a root is right.
pub fn fits_ids(key: Key) -> bool
    ensures { result ≡ fits_ids key }
{
    both(is_number(key), word(key, 2) < 6)
}

// Whether a break lies where it may.
#[tactic(auto, unfolding(unix_model::specs::Limits::loads_end))]
fn in_bounds(first: u32, last: u32) -> bool
    ensures { result ≡ in_bounds first last }
{
    first % 4096 == 0 && (first <= last && last <= 0x7FFE_0000)
}

// Whether the word that a wait answers is 0, as it is before a process ends.
fn has_word(phase: Phase, word: u32) -> bool
    ensures { result ≡ (has_ended phase || word == 0) }
{
    let ended = has_ended(phase);
    ended || word == 0
}

/// Whether key 8 of a root is right in a phase.
pub fn fits_break(phase: Phase, key: Key) -> bool
    ensures { result ≡ fits_break phase key }
{
    let bounds = in_bounds(word(key, 0), word(key, 1));
    both(is_number(key), both(bounds, has_word(phase, word(key, 2))))
}

// Whether a word is a number of a call in Sent, and all are zero else.
fn has_call(phase: Phase, key: Key) -> bool
    ensures { result ≡ (if is_sent phase then nat_lt (word_in key 0) 256 else are_zero key) }
{
    if is_sent(phase) {
        word(key, 0) < 256
    } else {
        are_zero(key)
    }
}

/// Whether key 9 of a root is right in a phase.
pub fn fits_call(phase: Phase, key: Key) -> bool
    ensures { result ≡ fits_call phase key }
{
    both(is_number(key), has_call(phase, key))
}

// Whether a last word is a length in the phase that has one, and all are zero else.
fn has_length(used: bool, key: Key) -> bool
    ensures { result ≡ (if used then nat_le (word_in key 2) 4096 else are_zero key) }
{
    if used {
        word(key, 2) <= 4096
    } else {
        are_zero(key)
    }
}

/// Whether key 10 of a root is right in a phase.
pub fn fits_rest(phase: Phase, key: Key) -> bool
    ensures { result ≡ fits_rest phase key }
{
    both(is_number(key), has_length(is_sent(phase), key))
}

/// Whether key 11 of a root is right in a phase.
pub fn fits_answer(phase: Phase, key: Key) -> bool
    ensures { result ≡ fits_answer phase key }
{
    both(is_number(key), has_length(is_done(phase), key))
}

/// Whether key 12 of a root is right.
pub fn fits_marks(key: Key) -> bool
    ensures { result ≡ fits_marks key }
{
    both(is_number(key), both(word(key, 0) < 2, word(key, 2) == 0))
}

// Whether a page has to be held for the bytes of a request or an answer.
fn needs_buffer(phase: Phase, sent: u32, answered: u32) -> bool
    ensures { result ≡ needs_buffer phase sent answered }
{
    let (is_sent, is_done) = (is_sent(phase), is_done(phase));
    (is_sent && !(sent == 0)) || (is_done && !(answered == 0))
}

// Whether no page is held, or one that may be.
fn may_hold(phase: Phase, key: Key) -> bool
    ensures { result ≡ (is_null key || (is_done phase && is_held key)) }
{
    let (null, done, held) = (is_null(key), is_done(phase), is_held(key));
    null || (done && held)
}

/// Whether key 5 of a root is right in a phase, with how many bytes its request and its answer bring.
pub fn fits_buffer(phase: Phase, sent: u32, answered: u32, key: Key) -> bool
    ensures { result ≡ fits_buffer phase sent answered key }
{
    if needs_buffer(phase, sent, answered) {
        is_held(key)
    } else {
        may_hold(phase, key)
    }
}

/// Whether a key of the resume room is right in a phase, for a root and a count of its calls.
pub fn fits_room(phase: Phase, root: NodeId, count: u64, key: Key) -> bool
    ensures { result ≡ fits_room phase root.0 count key }
{
    if waits(phase) {
        is_resume(root, count, key)
    } else {
        is_null(key)
    }
}
