//! A machine from nothing to its first process.

ghost use Rattle.std.specs.Prelude.{◌≡◌};
ghost use Rattle.flat_unix.specs.Boots.{flat_fault};

use crate::flat::{Flat, FlatFault};
use flat_boot::BootFault;
use std::alloc::Global;

impl Flat {
    ghost use Rattle.std.specs.Prelude.{◌≡◌, ◌≤◌, ℕ, ◌∷◌, [], Ok, Err, IfErr, IfOk, IsSome, OnOk, true};
    ghost use Rattle.flat_boot.specs.NewPaths.{is_new_path};
    ghost use Rattle.unix_model.specs.Boot.{NewDirectory, NewFile, NoRoomFor, empty_machine, init_path, with_boot_entries, with_init};
    ghost use Rattle.unix_model.specs.Paths.{file_at};
    ghost use Rattle.flat_unix.specs.Boots.{IsNoMemory, IsStoreFault, Starts};
    ghost use Rattle.flat_unix.specs.FlatView.{unix_of};

    /// A machine that may promise `pages` pages, 64 to 16,384, and gives each slot `quantum` turns in a row, 1 to
    /// 10,000. It has the console and the empty root.
    ///
    /// # Errors
    ///
    /// `NoMemory` is free, and nothing else comes.
    pub fn new(alloc: Global, pages: u32, quantum: u32) -> Result<Flat, FlatFault>
        requires pages { (64 ≤ pages) × (pages ≤ 16384) }
        requires quantum { (1 ≤ quantum) × (quantum ≤ 10000) }
        ensures empty { IfOk result (λ flat. unix_of flat ≡ empty_machine pages quantum) }
        ensures err { IfErr result IsNoMemory }
    {
        match flat_boot::new(alloc, pages, quantum) {
            Ok(state) => Ok(Flat { state }),
            Err(_) => Err(FlatFault::NoMemory),
        }
    }

    /// Whether nothing stands at a path yet, and the directory is there in which it would stand.
    pub fn is_new_path(&self, path: &[u8]) -> bool
        ensures { result ≡ is_new_path (unix_of self.now).files path.now }
    {
        flat_boot::is_new_path(&self.state, path)
    }

    /// Makes an empty directory at a new path.
    ///
    /// # Errors
    ///
    /// `NoRoom` exactly where an inode, a place or room is missing; the machine is then as before. `NoMemory` is free; the
    /// machine is then given up.
    pub fn add_dir(&mut self, alloc: Global, path: &[u8]) -> Result<(), FlatFault>
        requires { is_new_path (unix_of self.old).files path.now ≡ true }
        ensures ok { (number : ℕ) → OnOk result (with_boot_entries number (unix_of self.old) (record { path = path.now; node = NewDirectory } ∷ []) ≡ Ok (unix_of self.new)) }
        ensures no_room { (number : ℕ) → result ≡ Err FlatFault.NoRoom → with_boot_entries number (unix_of self.old) (record { path = path.now; node = NewDirectory } ∷ []) ≡ Err (NoRoomFor number) }
        ensures unchanged { result ≡ Err FlatFault.NoRoom → unix_of self.new ≡ unix_of self.old }
        ensures err { IfErr result IsStoreFault }
    {
        match flat_boot::add_dir(&mut self.state, alloc, path) {
            Ok(()) => Ok(()),
            Err(failed) => Err(fault(failed)),
        }
    }

    /// Stores a file at a new path.
    ///
    /// # Errors
    ///
    /// `NoRoom` exactly where the file has more than 4,194,304 bytes, or an inode, a place or room is missing; the machine
    /// is then as before. `NoMemory` is free; the machine is then given up.
    pub fn add_file(&mut self, alloc: Global, path: &[u8], bytes: &[u8]) -> Result<(), FlatFault>
        requires { is_new_path (unix_of self.old).files path.now ≡ true }
        ensures ok { (number : ℕ) → OnOk result (with_boot_entries number (unix_of self.old) (record { path = path.now; node = NewFile bytes.now } ∷ []) ≡ Ok (unix_of self.new)) }
        ensures no_room { (number : ℕ) → result ≡ Err FlatFault.NoRoom → with_boot_entries number (unix_of self.old) (record { path = path.now; node = NewFile bytes.now } ∷ []) ≡ Err (NoRoomFor number) }
        ensures unchanged { result ≡ Err FlatFault.NoRoom → unix_of self.new ≡ unix_of self.old }
        ensures err { IfErr result IsStoreFault }
    {
        match flat_boot::add_file(&mut self.state, alloc, path, bytes) {
            Ok(()) => Ok(()),
            Err(failed) => Err(fault(failed)),
        }
    }

    /// Loads `/init` in slot 0 as process 1, with the console as its descriptors 0 to 2.
    ///
    /// # Errors
    ///
    /// `Elf` where the file isn't a program that this machine runs, and `NoRoom` exactly where the machine with the
    /// program loaded has no room; the machine is then as before. `NoMemory` is free; the machine is then given up.
    pub fn start(&mut self, alloc: Global) -> Result<(), FlatFault>
        requires { IsSome (file_at (unix_of self.old).files init_path) }
        ensures { Starts (with_init (unix_of self.old)) (unix_of self.old) (unix_of self.new) result }
    {
        match flat_boot::start(&mut self.state, alloc) {
            Ok(()) => Ok(()),
            Err(failed) => Err(fault(failed)),
        }
    }
}

/// The fault of a step of boot.
fn fault(fault: BootFault) -> FlatFault
    ensures { result ≡ flat_fault fault }
{
    match fault {
        BootFault::NoMemory => FlatFault::NoMemory,
        BootFault::NoRoom => FlatFault::NoRoom,
        BootFault::Elf(fault) => FlatFault::Elf(fault),
    }
}
