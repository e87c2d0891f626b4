//! The entries of boot: directories and files.

ghost use Rattle.std.specs.Prelude.{◌≡◌, ◌≤◌, ℕ, ◌∷◌, [], Ok, Err, IfErr, IfOk, OnOk, false, true, length};
ghost use Rattle.unix_model.specs.Boot.{NewDirectory, NewFile, NoRoomFor, is_too_long, with_boot_entries};
ghost use Rattle.unix_model.specs.Files.{is_directory};
ghost use Rattle.unix_model.specs.Paths.{walked};
ghost use Rattle.unix_model.specs.Tables.{at};
ghost use Rattle.flat_files.specs.SpotView.{spot_of};
ghost use Rattle.flat_state.specs.StateView.{unix_of};
ghost use Rattle.flat_boot.specs.NewPaths.{is_new_path, IsNewSpot};
ghost use Rattle.flat_boot.specs.Making.{IsStoreFault};

use crate::fault::BootFault;
use crate::making::make;
use flat_files::{Contents, Directory, Inode, Spot};
use flat_state::State;
use std::alloc::Global;

/// Whether nothing stands at a path yet, and the directory is there in which it would stand.
#[tactic(auto, unfolding(crate::specs::NewPaths::is_new_path))]
pub fn is_new_path(state: &State, path: &[u8]) -> bool
    ensures { result ≡ is_new_path (unix_of state.now).files path.now }
{
    match state.files.walk(path) {
        Ok(spot) => spot.inode.is_none(),
        Err(_) => false,
    }
}

/// Where a new path ends.
fn new_spot<'a>(state: &State, path: &'a [u8]) -> Spot<'a>
    requires { is_new_path (unix_of state.now).files path.now ≡ true }
    ensures { IsNewSpot (unix_of state.now).files path.now (spot_of result) }
{
    match state.files.walk(path) {
        Ok(spot) => spot,
        Err(_) => unreachable!(),
    }
}

/// Makes an empty directory at a new path.
///
/// # Errors
///
/// `NoRoom` exactly where an inode, a place or room is missing; the machine is then as before. `NoMemory` is free; the
/// machine is then given up.
pub fn add_dir(state: &mut State, alloc: Global, path: &[u8]) -> Result<(), BootFault>
    requires { is_new_path (unix_of state.old).files path.now ≡ true }
    ensures ok { (number : ℕ) → OnOk result (with_boot_entries number (unix_of state.old) (record { path = path.now; node = NewDirectory } ∷ []) ≡ Ok (unix_of state.new)) }
    ensures no_room { (number : ℕ) → result ≡ Err BootFault.NoRoom → with_boot_entries number (unix_of state.old) (record { path = path.now; node = NewDirectory } ∷ []) ≡ Err (NoRoomFor number) }
    ensures unchanged { result ≡ Err BootFault.NoRoom → unix_of state.new ≡ unix_of state.old }
    ensures err { IfErr result IsStoreFault }
{
    let spot = new_spot(state, path);
    let directory = Directory {
        parent: spot.directory,
        places: Vec::new(alloc),
    };
    make(state, alloc, spot, Inode::Directory(directory))
}

/// Stores a file at a new path.
///
/// # Errors
///
/// `NoRoom` exactly where the file has more than 4,194,304 bytes, or an inode, a place or room is missing; the machine is
/// then as before. `NoMemory` is free; the machine is then given up.
pub fn add_file(
    state: &mut State,
    alloc: Global,
    path: &[u8],
    bytes: &[u8],
) -> Result<(), BootFault>
    requires { is_new_path (unix_of state.old).files path.now ≡ true }
    ensures ok { (number : ℕ) → OnOk result (with_boot_entries number (unix_of state.old) (record { path = path.now; node = NewFile bytes.now } ∷ []) ≡ Ok (unix_of state.new)) }
    ensures no_room { (number : ℕ) → result ≡ Err BootFault.NoRoom → with_boot_entries number (unix_of state.old) (record { path = path.now; node = NewFile bytes.now } ∷ []) ≡ Err (NoRoomFor number) }
    ensures unchanged { result ≡ Err BootFault.NoRoom → unix_of state.new ≡ unix_of state.old }
    ensures err { IfErr result IsStoreFault }
{
    if is_too_long(bytes) {
        return Err(BootFault::NoRoom);
    }
    let contents = match Vec::from_slice(alloc, bytes) {
        Ok(bytes) => Contents { bytes },
        Err(_) => return Err(BootFault::NoMemory),
    };
    let spot = new_spot(state, path);
    make(state, alloc, spot, Inode::File(contents))
}

/// Whether a file is too long.
#[tactic(auto, unfolding(unix_model::specs::Limits::most_file_bytes))]
fn is_too_long(bytes: &[u8]) -> bool
    ensures long { result ≡ is_too_long (NewFile bytes.now) }
    ensures few { result ≡ false → length bytes.now ≤ 4194304 }
{
    bytes.len() > 4194304
}
