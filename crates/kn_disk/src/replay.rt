//! What changes make of bytes.
ghost use Rattle.std.specs.Prelude.{◌≡◌, ◌≤◌, ◌+◌, ◌-◌, [], ◌∷◌, All, min, length, replicate, OnOk, OnErr, IsOk, vec_len, vec_capacity};
ghost use Rattle.kn_base.specs.Rows.{overwritten};
ghost use Rattle.kn_disk.specs.Images.{resized};
ghost use Rattle.kn_disk.specs.Steps.{clipped, stepped, contents_after, spoiled};
ghost use Rattle.kn_disk.specs.Changes.{step_of, steps_of, IsWithin, is_sync, Settles};

use crate::change::Change;
use kn_io::NoMemory;

/// Writes bytes over others.
#[tactic(auto, unfolding(kn_base::specs::Rows::overwritten))]
pub(crate) fn write_over(bytes: &mut Vec<u8>, at: usize, from: &[u8])
    requires { at + length from.now ≤ length bytes.old.items }
    ensures written { bytes.new.items ≡ overwritten bytes.old.items at from.now }
    ensures length { vec_len bytes.new ≡ vec_len bytes.old }
    ensures capacity { vec_capacity bytes.new ≡ vec_capacity bytes.old }
{
    bytes[at..at + from.len()].copy_from_slice(from);
}

/// Cuts bytes to a length, or puts zeros behind them.
#[tactic(auto, unfolding(crate::specs::Images::resized))]
pub(crate) fn resize(bytes: &mut Vec<u8>, length: usize) -> Result<(), NoMemory>
    ensures ok { OnOk result (bytes.new.items ≡ resized length bytes.old.items) }
    ensures err { OnErr result (bytes.new.items ≡ bytes.old.items) }
    ensures length { OnOk result (vec_len bytes.new ≡ length) }
    ensures capacity { vec_capacity bytes.old ≤ vec_capacity bytes.new }
    ensures succeeds { length ≤ vec_capacity bytes.old → IsOk result }
{
    match bytes.resize(length, 0) {
        Ok(()) => Ok(()),
        Err(_) => Err(NoMemory),
    }
}

// How many bytes from a place on are there, of so many.
fn bytes_there(length: usize, at: u64, count: usize) -> usize
    ensures { result ≡ min count (length - at) }
{
    if length as u64 <= at {
        return 0;
    }
    count.min(length - at as usize)
}

// Writes as many bytes as there is room for behind their place.
#[tactic(auto, using(crate::proofs::ClipLaws::clips))]
fn write_clipped(bytes: &mut Vec<u8>, at: u64, from: &[u8])
    ensures { bytes.new.items ≡ clipped bytes.old.items at from.now }
{
    let count = bytes_there(bytes.len(), at, from.len());
    if count > 0 {
        write_over(bytes, at as usize, &from[..count]);
    }
}

// Makes all bytes one byte.
fn fill_all(bytes: &mut [u8], byte: u8)
    ensures { bytes.new ≡ replicate (length bytes.old) byte }
{
    bytes.fill(byte);
}

// Writes a byte over so many others.
#[tactic(auto, unfolding(kn_base::specs::Rows::overwritten))]
fn fill_over(bytes: &mut Vec<u8>, at: usize, count: usize, byte: u8)
    requires { at + count ≤ length bytes.old.items }
    ensures { bytes.new.items ≡ overwritten bytes.old.items at (replicate count byte) }
{
    fill_all(&mut bytes[at..at + count], byte);
}

// Writes a byte so many times, or as often as there is room for.
#[tactic(auto, using(crate::proofs::ClipLaws::clips))]
fn fill_clipped(bytes: &mut Vec<u8>, at: u64, count: usize, byte: u8)
    ensures { bytes.new.items ≡ clipped bytes.old.items at (replicate count byte) }
{
    let count = bytes_there(bytes.len(), at, count);
    if count > 0 {
        fill_over(bytes, at as usize, count, byte);
    }
}

// Does to bytes what a change did.
#[tactic(auto, using(crate::proofs::ReplayLaws::one_step))]
fn step_on(bytes: &mut Vec<u8>, change: &Change, log: &[u8]) -> Result<(), NoMemory>
    requires { IsWithin (length log.now) change.now }
    ensures { OnOk result (bytes.new.items ≡ stepped (step_of log.now change.now) bytes.old.items) }
{
    match change {
        Change::Written { at, from, count } => {
            write_clipped(bytes, *at, &log[*from..*from + *count]);
            Ok(())
        }
        Change::Cut { length } => match resize(bytes, *length as usize) {
            Ok(()) => Ok(()),
            Err(_) => Err(NoMemory),
        },
        Change::Synced => Ok(()),
    }
}

/// Does to bytes what changes did, one after the other.
///
/// # Errors
///
/// `NoMemory` where host memory ran out.
#[tactic(auto, using(crate::proofs::ReplayLaws::replays))]
pub(crate) fn replay(bytes: &mut Vec<u8>, changes: &[Change], log: &[u8]) -> Result<(), NoMemory>
    requires { All (IsWithin (length log.now)) changes.now }
    ensures { OnOk result (bytes.new.items ≡ contents_after bytes.old.items (steps_of log.now changes.now)) }
{
    for change in changes {
        match step_on(bytes, change, log) {
            Ok(()) => {}
            Err(_) => return Err(NoMemory),
        }
    }
    Ok(())
}

// Puts a byte where a change wrote.
#[tactic(auto, using(crate::proofs::ReplayLaws::one_spoil))]
fn spoil_one(bytes: &mut Vec<u8>, change: &Change, byte: u8, log: &[u8])
    requires { IsWithin (length log.now) change.now }
    ensures { bytes.new.items ≡ spoiled byte bytes.old.items (step_of log.now change.now ∷ []) }
{
    if let Change::Written { at, from: _, count } = change {
        fill_clipped(bytes, *at, *count, byte);
    }
}

/// Puts a byte wherever changes wrote.
pub(crate) fn spoil(bytes: &mut Vec<u8>, changes: &[Change], byte: u8, log: &[u8])
    requires { All (IsWithin (length log.now)) changes.now }
    ensures { bytes.new.items ≡ spoiled byte bytes.old.items (steps_of log.now changes.now) }
{
    for change in changes {
        spoil_one(bytes, change, byte, log);
    }
}

// Whether a change is a sync.
fn is_sync(change: &Change) -> bool
    ensures { result ≡ is_sync change.now }
{
    matches!(change, Change::Synced)
}

/// How many changes there are up to the last sync.
pub(crate) fn settled_count(changes: &[Change]) -> usize
    ensures { Settles changes.now result }
{
    let mut count = 0;
    for index in 0..changes.len() {
        if is_sync(&changes[index]) {
            count = index + 1;
        }
    }
    count
}
