//! The line of getdents.

ghost use Rattle.std.specs.Prelude.{◌≡◌, ◌+◌, ◌++◌, ◌*◌, ◌∷◌, ◌<◌, ◌≤◌, IfOk, OnOk, List, Option, length, map, drop, replicate};
ghost use Rattle.unix_model.specs.FileCalls.{entry_bytes, getdents_line, listed_bytes, looked_at};
ghost use Rattle.unix_model.specs.Files as model;
ghost use Rattle.unix_model.specs.State.{with_process};
ghost use Rattle.flat_files.specs.EntryView.{entry_of, place_of};
ghost use Rattle.flat_state.specs.ProcessView.{process_of};
ghost use Rattle.flat_state.specs.Settles.{Settles};
ghost use Rattle.flat_state.specs.StateView.{unix_of};

use crate::offsets::set_offset;
use flat_files::{Entry, Inode};
use flat_state::{Answer, Process, State};
use std::alloc::{AllocError, Global};
use unix_model::{Errno, Turned};

/// What was listed of a directory, how many places were looked at, and how many entries more there is room for.
#[derive(Drop)]
pub(crate) struct Listing {
    pub bytes: Vec<u8>,
    pub looked: u32,
    pub room: u32,
}

/// Adds the 32 bytes of an entry: its inode, the length of its name, and the name with zeros after it.
#[tactic(auto, unfolding(unix_model::specs::FileCalls::entry_bytes))]
fn add_entry(bytes: &mut Vec<u8>, entry: &Entry) -> Result<(), AllocError>
    ensures bytes { OnOk result (bytes.new.items ≡ bytes.old.items ++ entry_bytes (entry_of entry.now)) }
    ensures more { OnOk result (length bytes.new.items ≡ length bytes.old.items + 32) }
{
    bytes.extend_from_slice(&u32::from(entry.inode).to_le_bytes())?;
    bytes.push(entry.name.len() as u8)?;
    bytes.extend_from_slice(&entry.name)?;
    add_zeros(bytes, 27 - entry.name.len())
}

/// Adds so many zeros.
#[tactic(auto, using(crate::proofs::ListingLaws::zeros))]
fn add_zeros(bytes: &mut Vec<u8>, count: usize) -> Result<(), AllocError>
    requires { count ≤ 27 }
    ensures { OnOk result (bytes.new.items ≡ bytes.old.items ++ replicate count 0) }
{
    bytes.resize(bytes.len() + count, 0)
}

/// Looks at a place more, where there is room for an entry.
#[tactic(auto, using(crate::proofs::ListingLaws::places))]
fn list_place(listing: Listing, place: &Option<Entry>) -> Result<Listing, AllocError>
    requires { listing.looked < 1024 }
    ensures bytes { IfOk result (λ next. (rest : List (Option model.Entry)) → next.bytes.items ++ listed_bytes next.room rest ≡ listing.bytes.items ++ listed_bytes listing.room (place_of place.now ∷ rest)) }
    ensures looked { IfOk result (λ next. (rest : List (Option model.Entry)) → next.looked + looked_at next.room rest ≡ listing.looked + looked_at listing.room (place_of place.now ∷ rest)) }
    ensures room { IfOk result (λ next. length next.bytes.items + 32 * next.room ≡ length listing.bytes.items + 32 * listing.room) }
    ensures few { IfOk result (λ next. next.looked ≤ listing.looked + 1) }
{
    if listing.room == 0 {
        return Ok(listing);
    }
    match place {
        Some(entry) => {
            let mut bytes = listing.bytes;
            add_entry(&mut bytes, entry)?;
            Ok(Listing {
                bytes,
                looked: listing.looked + 1,
                room: listing.room - 1,
            })
        }
        None => Ok(Listing {
            bytes: listing.bytes,
            looked: listing.looked + 1,
            room: listing.room,
        }),
    }
}

/// The entries of places, at most so many, and how many places were looked at.
fn list(alloc: Global, places: &[Option<Entry>], most: u32) -> Result<Listing, AllocError>
    requires { length places.now ≤ 1024 }
    ensures bytes { IfOk result (λ listing. listing.bytes.items ≡ listed_bytes most (map place_of places.now)) }
    ensures looked { IfOk result (λ listing. listing.looked ≡ looked_at most (map place_of places.now)) }
    ensures room { IfOk result (λ listing. length listing.bytes.items ≤ 32 * most) }
    ensures few { IfOk result (λ listing. listing.looked ≤ length places.now) }
{
    let mut listing = Listing {
        bytes: Vec::new(alloc),
        looked: 0,
        room: most,
    };
    for place in places {
        listing = list_place(listing, place)?;
    }
    Ok(listing)
}

/// The places from one on.
fn rest(places: &[Option<Entry>], start: u32) -> &[Option<Entry>]
    ensures rest { result.now ≡ drop start places.now }
    ensures few { length result.now + start ≤ length places.now + start }
{
    if (start as usize) < places.len() {
        &places[start as usize..]
    } else {
        &[]
    }
}

/// The line of getdents(descriptor, address, count): whole entries from the offset on, which goes past the last place
/// that was looked at.
#[tactic(auto, using(unix_model::proofs::TableLaws::tables_over))]
pub fn getdents(
    state: &mut State,
    alloc: Global,
    slot: u8,
    process: Process,
    number: u32,
    address: u32,
    count: u32,
) -> Result<Turned, AllocError>
    requires slot { slot < 64 }
    requires count { count ≤ 4096 }
    ensures { IfOk result (λ answer. Settles (with_process (unix_of state.old) slot (process_of process)) slot (process_of process) (getdents_line (with_process (unix_of state.old) slot (process_of process)) slot (process_of process) number address count) (unix_of state.new) answer) }
{
    let file = match state.opened(&process, number) {
        Some(file) => file,
        None => return Ok(state.refuse(slot, process, Errno::Ebadf)),
    };
    let offset = file.description.offset;
    let listing = match state.files.inode(file.description.inode) {
        Some(Inode::Directory(directory)) => {
            list(alloc, rest(&directory.places, offset / 32), count / 32)?
        }
        _ => return Ok(state.refuse(slot, process, Errno::Enotdir)),
    };
    set_offset(state, file, offset + 32 * listing.looked);
    Ok(state.reply_with(
        slot,
        process,
        Answer {
            value: listing.bytes.len() as u32,
            address,
            bytes: listing.bytes,
        },
    ))
}
