//! New inodes at names where nothing stands.

ghost use Rattle.std.specs.Prelude.{◌≡◌, ◌≤◌, [], Some, IfSome, true};
ghost use Rattle.unix_model.specs.declared.calls.Errno.TheVariants.{Enospc};
ghost use Rattle.unix_model.specs.Files.{Inode as ModelInode, inode_pages, is_directory, places_of};
ghost use Rattle.unix_model.specs.NameCalls.{made, with_made};
ghost use Rattle.unix_model.specs.Refusals.{refuse◌unless◌};
ghost use Rattle.unix_model.specs.Room.{has_room};
ghost use Rattle.unix_model.specs.Tables.{at};
ghost use Rattle.flat_files.specs.FreeNumber.{IsFreeNumber};
ghost use Rattle.flat_files.specs.InodeView.{inode_of};
ghost use Rattle.flat_files.specs.SpotView.{spot_of};
ghost use Rattle.flat_state.specs.StateView.{unix_of};
ghost use Rattle.flat_boot.specs.Making.{new_inode, IsNewNumber, Makes};

use crate::fault::BootFault;
use flat_files::{Inode, Spot};
use flat_state::State;
use std::alloc::Global;

/// The number of a new inode of so many pages, where there is one, and a place and room for it.
fn free_number(state: &State, spot: Spot, pages: u32) -> Option<u16>
    requires few { pages ≤ 1024 }
    requires directory { is_directory (at (unix_of state.now).files.inodes spot.directory) ≡ true }
    ensures number { (new : ModelInode) → inode_pages (Some new) ≡ pages → (refuse Enospc unless result) ≡ made (unix_of state.now) (spot_of spot.entry) new }
    ensures free { IfSome result (IsNewNumber (unix_of state.now).files spot.entry.directory) }
{
    let number = match state.files.free_inode() {
        Some(number) => number,
        None => return None,
    };
    if state.files.is_full(spot.directory) {
        return None;
    }
    if !has_room_for(state, spot, number, pages) {
        return None;
    }
    Some(number)
}

/// Whether there is room for an inode of so many pages at a free number.
fn has_room_for(state: &State, spot: Spot, number: u16, pages: u32) -> bool
    requires few { pages ≤ 1024 }
    requires number { IsFreeNumber (unix_of state.now).files.inodes number }
    requires directory { is_directory (at (unix_of state.now).files.inodes spot.directory) ≡ true }
    ensures { (new : ModelInode) → inode_pages (Some new) ≡ pages → result ≡ has_room (with_made (unix_of state.now) (spot_of spot.entry) number new) }
{
    let after = state.promised() + pages + state.files.pages_with_name(spot.directory);
    let before = state.pages + state.files.inode_pages(spot.directory);
    after <= before
}

/// Makes an inode without names at a name of a directory where nothing stands.
pub(crate) fn make(
    state: &mut State,
    alloc: Global,
    spot: Spot,
    inode: Inode,
) -> Result<(), BootFault>
    requires empty { places_of (Some (inode_of inode)) ≡ [] }
    requires directory { is_directory (at (unix_of state.old).files.inodes spot.directory) ≡ true }
    ensures { Makes (new_inode (unix_of state.old) (spot_of spot.entry) (inode_of inode)) (unix_of state.old) (unix_of state.new) result }
{
    let number = match free_number(state, spot, inode.pages()) {
        Some(number) => number,
        None => return Err(BootFault::NoRoom),
    };
    match state.files.make(alloc, spot, number, inode) {
        Ok(()) => Ok(()),
        Err(_) => Err(BootFault::NoMemory),
    }
}
