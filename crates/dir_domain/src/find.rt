//! Names are looked for.

ghost use Rattle.std.specs.Prelude.{◌≡◌, ℕ, true};
ghost use Rattle.kn_base.specs.Memory.{Memory};
ghost use Rattle.kernel_tables.specs.Kernel.{Kernel, kernel_of};
ghost use Rattle.unix_model.specs.Files.{inode_named, is_directory};
ghost use Rattle.kernel_machine.specs.Standing.{Standing};
ghost use Rattle.dir_domain.specs.Rows.{inode_seen, places_seen};

use super::row::directory_row;
use super::search::find_place;
use kn_base::Store;

/// The inode that a directory has under this name. None comes exactly where no place of it has the name.
pub fn find_name<T: Store>(store: &T, dir: u32, name: &[u8]) -> Option<u32>
    requires standing { Standing (kernel_of (T.memory store.now)) }
    requires directory { is_directory (inode_seen (kernel_of (T.memory store.now)) dir) ≡ true }
    ensures { result ≡ inode_named (places_seen (kernel_of (T.memory store.now)) dir) name.now }
{
    let row = directory_row(store, dir);
    match find_place(store, &row, name) {
        Some(named) => Some(named.inode),
        None => None,
    }
}
