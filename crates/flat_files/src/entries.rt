//! What stands in the places of a directory.

ghost use Rattle.std.specs.Prelude.{◌≡◌, MatchOption, is_some};
ghost use Rattle.std.specs.List.{list_any, count_by};
ghost use Rattle.unix_model.specs.Files as model;
ghost use Rattle.flat_files.specs.EntryView.{place_of};
ghost use Rattle.flat_files.specs.Places.{HasNoHole, IsFirstHole, HasNoPlace, IsFirstPlace};

use crate::entry::Entry;

/// Whether a place has this name.
fn is_named(place: &Option<Entry>, name: &[u8]) -> bool
    ensures { result ≡ is_some (model.place_inode name.now (place_of place.now)) }
{
    match place {
        Some(entry) => entry.name.as_slice() == name,
        None => false,
    }
}

/// The first place with this name.
#[tactic(auto, using(crate::proofs::DirectoryLaws::names))]
pub fn first_place(places: &[Option<Entry>], name: &[u8]) -> Option<usize>
    ensures { MatchOption result (HasNoPlace places.now name.now) (IsFirstPlace places.now name.now) }
{
    for (i, place) in places.iter().enumerate() {
        if is_named(place, name) {
            return Some(i);
        }
    }
    None
}

/// The first hole.
#[tactic(auto, using(crate::proofs::DirectoryLaws::holes))]
pub fn first_hole(places: &[Option<Entry>]) -> Option<usize>
    ensures { MatchOption result (HasNoHole places.now) (IsFirstHole places.now) }
{
    for (i, place) in places.iter().enumerate() {
        if place.is_none() {
            return Some(i);
        }
    }
    None
}

/// Whether one of the places has an entry.
pub fn any_taken(places: &[Option<Entry>]) -> bool
    ensures { result ≡ list_any (λ place. is_some (place_of place)) places.now }
{
    places.iter().any(|place| is_taken(place))
}

/// Whether a place has an entry.
fn is_taken(place: &Option<Entry>) -> bool
    ensures { result ≡ is_some (place_of place.now) }
{
    match place {
        Some(_) => true,
        None => false,
    }
}

/// Whether one of the places has an entry of this inode.
pub fn any_names(places: &[Option<Entry>], inode: u16) -> bool
    ensures { result ≡ list_any (λ place. model.entry_names inode (place_of place)) places.now }
{
    places.iter().any(|place| names_inode(place, inode))
}

/// How many of the places have an entry of this inode.
pub fn count_names(places: &[Option<Entry>], inode: u16) -> usize
    ensures { result ≡ count_by (λ place. model.entry_names inode (place_of place)) places.now }
{
    places
        .iter()
        .filter(|place| names_inode(place, inode))
        .count()
}

/// Whether a place has an entry of this inode.
fn names_inode(place: &Option<Entry>, inode: u16) -> bool
    ensures { result ≡ model.entry_names inode (place_of place.now) }
{
    match place {
        Some(entry) => entry.inode == inode,
        None => false,
    }
}
