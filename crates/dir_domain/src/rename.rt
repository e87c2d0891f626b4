//! Names go, or get another inode.

ghost use Rattle.std.specs.Prelude.{◌≡◌, ℕ, ◌+◌, ◌≤◌, IfOk, OnErr, Some, None, true};
ghost use Rattle.kn_base.specs.Memory.{Memory};
ghost use Rattle.kernel_tables.specs.Kernel.{Kernel, kernel_of};
ghost use Rattle.unix_model.specs.Files.{is_directory, with_place};
ghost use Rattle.unix_model.specs.Rules.{IsName};
ghost use Rattle.kernel_machine.specs.Contents.{place_in};
ghost use Rattle.file_trees.specs.Good.{FilesGood};
ghost use Rattle.dir_domain.specs.Changes.{ChangesPlaces, name_told, entry_of};
ghost use Rattle.dir_domain.specs.Rows.{inode_seen, places_seen};

use super::place::entry_bytes;
use super::row::directory_row;
use super::search::find_place;
use super::write::write_place;
use kn_base::Store;
use unix_model::Errno;

// Puts bytes into the place of a name. Answers the inode that had the name.
fn change_place<T: Store>(
    store: &mut T,
    dir: u32,
    name: &[u8],
    bytes: &[u8; 32],
) -> Result<u32, Errno>
    requires good { FilesGood (kernel_of (T.memory store.old)) }
    requires directory { is_directory (inode_seen (kernel_of (T.memory store.old)) dir) ≡ true }
    ensures told { result ≡ name_told (places_seen (kernel_of (T.memory store.old)) dir) name.now }
    ensures changed { let old = kernel_of (T.memory store.old) in IfOk result (λ was. ChangesPlaces old (kernel_of (T.memory store.new)) dir (with_place (places_seen old dir) name.now (place_in bytes.now))) }
    ensures refused { OnErr result (kernel_of (T.memory store.new) ≡ kernel_of (T.memory store.old)) }
    ensures promised { (kernel_of (T.memory store.new)).machine.promised ≡ (kernel_of (T.memory store.old)).machine.promised }
    ensures good { FilesGood (kernel_of (T.memory store.new)) }
    ensures directory { is_directory (inode_seen (kernel_of (T.memory store.new)) dir) ≡ true }
    ensures most { (kernel_of (T.memory store.new)).machine.nodes_taken ≤ (kernel_of (T.memory store.old)).machine.nodes_taken + 12 }
    ensures keeps { T.keeps store.old store.new }
{
    let row = directory_row(store, dir);
    match find_place(store, &row, name) {
        Some(named) => {
            write_place(store, &row, named.number, bytes);
            Ok(named.inode)
        }
        None => Err(Errno::Enoent),
    }
}

/// Takes a name away from a directory: its place is a hole then, all its bytes zero. Answers the inode that had the name. ENOENT
/// comes exactly where no place has it, and then nothing has changed.
pub fn remove_name<T: Store>(store: &mut T, dir: u32, name: &[u8]) -> Result<u32, Errno>
    requires good { FilesGood (kernel_of (T.memory store.old)) }
    requires directory { is_directory (inode_seen (kernel_of (T.memory store.old)) dir) ≡ true }
    ensures told { result ≡ name_told (places_seen (kernel_of (T.memory store.old)) dir) name.now }
    ensures changed { let old = kernel_of (T.memory store.old) in IfOk result (λ inode. ChangesPlaces old (kernel_of (T.memory store.new)) dir (with_place (places_seen old dir) name.now None)) }
    ensures refused { OnErr result (kernel_of (T.memory store.new) ≡ kernel_of (T.memory store.old)) }
    ensures promised { (kernel_of (T.memory store.new)).machine.promised ≡ (kernel_of (T.memory store.old)).machine.promised }
    ensures good { FilesGood (kernel_of (T.memory store.new)) }
    ensures directory { is_directory (inode_seen (kernel_of (T.memory store.new)) dir) ≡ true }
    ensures most { (kernel_of (T.memory store.new)).machine.nodes_taken ≤ (kernel_of (T.memory store.old)).machine.nodes_taken + 12 }
    ensures keeps { T.keeps store.old store.new }
{
    change_place(store, dir, name, &[0; 32])
}

/// Puts another inode into the place of a name, which stays where it is. Answers the inode that had the name. ENOENT comes
/// exactly where no place has it, and then nothing has changed.
pub fn replace_name<T: Store>(
    store: &mut T,
    dir: u32,
    name: &[u8],
    inode: u32,
) -> Result<u32, Errno>
    requires good { FilesGood (kernel_of (T.memory store.old)) }
    requires directory { is_directory (inode_seen (kernel_of (T.memory store.old)) dir) ≡ true }
    requires name { IsName name.now }
    ensures told { result ≡ name_told (places_seen (kernel_of (T.memory store.old)) dir) name.now }
    ensures changed { let old = kernel_of (T.memory store.old) in IfOk result (λ was. ChangesPlaces old (kernel_of (T.memory store.new)) dir (with_place (places_seen old dir) name.now (Some (entry_of name.now inode)))) }
    ensures refused { OnErr result (kernel_of (T.memory store.new) ≡ kernel_of (T.memory store.old)) }
    ensures promised { (kernel_of (T.memory store.new)).machine.promised ≡ (kernel_of (T.memory store.old)).machine.promised }
    ensures good { FilesGood (kernel_of (T.memory store.new)) }
    ensures directory { is_directory (inode_seen (kernel_of (T.memory store.new)) dir) ≡ true }
    ensures most { (kernel_of (T.memory store.new)).machine.nodes_taken ≤ (kernel_of (T.memory store.old)).machine.nodes_taken + 12 }
    ensures keeps { T.keeps store.old store.new }
{
    change_place(store, dir, name, &entry_bytes(inode, name))
}
