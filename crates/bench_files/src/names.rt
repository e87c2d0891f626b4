//! Rounds of looking for names in a full directory, over any store.

ghost use Rattle.std.specs.Prelude.{◌≡◌, ℕ, IfSome, true};
ghost use Rattle.kn_base.specs.Memory.{Memory};
ghost use Rattle.kernel_tables.specs.Kernel.{Kernel, kernel_of};
ghost use Rattle.unix_model.specs.Files.{is_directory as is_directory_inode};
ghost use Rattle.file_trees.specs.Good.{FilesGood};
ghost use Rattle.dir_domain.specs.Rows.{inode_seen};

use dir_domain::find_name;
use kn_base::Store;
use tests_files::directories::{add, add_directory, is_directory, numbered};

// Gives a directory as many names as it takes. How many these are.
fn fill<T: Store>(store: &mut T, dir: u32) -> u32
    requires good { FilesGood (kernel_of (T.memory store.old)) }
    ensures good { FilesGood (kernel_of (T.memory store.new)) }
{
    let mut filled = 0u32;
    for number in 0..1024 {
        if add(store, dir, &numbered(number), dir).is_ok() {
            filled = filled.wrapping_add(1);
        }
    }
    filled
}

// Looks for 1,024 names. How many are there.
fn find_each<T: Store>(store: &T, dir: u32) -> u32
    requires good { FilesGood (kernel_of (T.memory store.now)) }
    requires directory { is_directory_inode (inode_seen (kernel_of (T.memory store.now)) dir) ≡ true }
{
    let mut found = 0u32;
    for number in 0..1024 {
        if find_name(store, dir, &numbered(number)).is_some() {
            found = found.wrapping_add(1);
        }
    }
    found
}

// Looks for the names of a directory, where it is one.
fn find_rounds<T: Store>(store: &T, dir: u32, rounds: u32) -> u32
    requires good { FilesGood (kernel_of (T.memory store.now)) }
{
    if !is_directory(store, dir) {
        return 0;
    }
    let mut found = 0u32;
    for _round in 0..rounds {
        found = found.wrapping_add(find_each(store, dir));
    }
    found
}

/// Fills a directory with 1,024 names, and looks for each of them in each round. How many were there.
pub fn find_all<T: Store>(store: &mut T, rounds: u32) -> u32
    requires good { FilesGood (kernel_of (T.memory store.old)) }
{
    match add_directory(store) {
        Some(dir) => {
            if fill(store, dir) == 1024 {
                find_rounds(store, dir, rounds)
            } else {
                0
            }
        }
        None => 0,
    }
}
