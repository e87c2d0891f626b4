//! Directories.

ghost use Rattle.std.specs.Prelude.{◌<◌, ◌≤◌, length};

use crate::entries::{any_names, any_taken, count_names, first_hole, first_place};
use crate::entry::Entry;
use std::alloc::AllocError;

/// A directory: the inode number of its parent, and at most 1,024 places, of which those without an entry are holes.
#[derive(Drop)]
pub struct Directory {
    pub parent: u16,
    pub places: Vec<Option<Entry>>,
    ghost few: { length places.items ≤ 1024 },
    ghost below_limit: { parent < 1024 },
}

impl Directory {
    ghost use Rattle.std.specs.Prelude.{◌≡◌, ◌<◌, ◌≤◌, ℕ, IfSome, OnOk, false, is_some, length, map};
    ghost use Rattle.std.specs.List.{count_by, list_any};
    ghost use Rattle.unix_model.specs.Files as model;
    ghost use Rattle.unix_model.specs.Files.{entry_names, inode_named, with_entry, with_place};
    ghost use Rattle.flat_files.specs.EntryView.{entry_of, place_of};
    ghost use Rattle.flat_files.specs.Places.{is_full_with};

    /// Adds an entry, in the first hole or else in a new place at the end. The directory isn't full.
    pub fn add(&mut self, entry: Entry) -> Result<(), AllocError>
        requires { is_full_with (map place_of self.old.places.items) ≡ false }
        ensures parent { self.new.parent ≡ self.old.parent }
        ensures places { OnOk result (map place_of self.new.places.items ≡ with_entry (map place_of self.old.places.items) (entry_of entry)) }
    {
        match first_hole(&self.places) {
            Some(hole) => self.places[hole] = Some(entry),
            None => self.places.push(Some(entry))?,
        }
        Ok(())
    }

    /// Changes the first place with this name, if there is one.
    pub fn set(&mut self, name: &[u8], place: Option<Entry>)
        ensures parent { self.new.parent ≡ self.old.parent }
        ensures places { map place_of self.new.places.items ≡ with_place (map place_of self.old.places.items) name.now (place_of place) }
    {
        match first_place(&self.places, name) {
            Some(at) => self.places[at] = place,
            None => {}
        }
    }

    /// Whether there is no place for an entry more.
    pub fn is_full(&self) -> bool
        ensures { result ≡ is_full_with (map place_of self.now.places.items) }
    {
        match first_hole(&self.places) {
            Some(_) => false,
            None => self.places.len() >= 1024,
        }
    }

    /// How many places there are with an entry more.
    pub fn places_with_entry(&self) -> usize
        ensures places { (entry : model.Entry) → result ≡ length (with_entry (map place_of self.now.places.items) entry) }
        ensures few { result ≤ 1025 }
    {
        match first_hole(&self.places) {
            Some(_) => self.places.len(),
            None => self.places.len() + 1,
        }
    }

    /// Whether there is an entry.
    #[tactic(auto, using(crate::proofs::SlotLaws::places))]
    pub fn has_names(&self) -> bool
        ensures { result ≡ list_any is_some (map place_of self.now.places.items) }
    {
        any_taken(&self.places)
    }

    /// The inode of the first place with this name.
    pub fn inode_named(&self, name: &[u8]) -> Option<u16>
        ensures inode { result ≡ inode_named (map place_of self.now.places.items) name.now }
        ensures below { IfSome result (λ inode. inode < 1024) }
    {
        let place = match first_place(&self.places, name) {
            Some(place) => place,
            None => return None,
        };
        match &self.places[place] {
            Some(entry) => Some(entry.inode),
            None => None,
        }
    }

    /// Whether one of the entries is of this inode.
    #[tactic(auto, using(crate::proofs::SlotLaws::places))]
    pub fn names(&self, inode: u16) -> bool
        ensures { result ≡ list_any (entry_names inode) (map place_of self.now.places.items) }
    {
        any_names(&self.places, inode)
    }

    /// How many entries are of this inode.
    pub fn count(&self, inode: u16) -> usize
        ensures count { result ≡ count_by (entry_names inode) (map place_of self.now.places.items) }
        ensures few { result ≤ 1024 }
    {
        count_names(&self.places, inode)
    }
}
