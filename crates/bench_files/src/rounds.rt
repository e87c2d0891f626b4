//! Rounds of reading and writing pieces of a file, over any store.

ghost use Rattle.std.specs.Prelude.{◌≡◌, ℕ, ◌<◌, IfSome};
ghost use Rattle.kn_base.specs.Memory.{Memory};
ghost use Rattle.kernel_tables.specs.declared.inode.Inode.{Inode};
ghost use Rattle.kernel_tables.specs.Kernel.{Kernel, kernel_of, inode_count};
ghost use Rattle.file_trees.specs.Good.{FilesGood};
ghost use Rattle.file_domain.specs.Good.{IsFileAt};

use file_domain::read_at;
use kn_base::Store;
use tests_files::guarded::{add_file, is_file, put};

// Where the piece of each round begins: it ends behind the end of the first page.
const PLACE: u32 = 2048;

// A file of 8,192 bytes that are 1.
fn begin<T: Store>(store: &mut T) -> Option<u32>
    requires good { FilesGood (kernel_of (T.memory store.old)) }
    ensures good { FilesGood (kernel_of (T.memory store.new)) }
    ensures below { IfSome result (λ file. file < inode_count) }
    ensures file { IfSome result (λ file. (inode : Inode) × IsFileAt (kernel_of (T.memory store.new)) file inode) }
{
    match add_file(store) {
        Some(file) => {
            if is_file(store, file) && put(store, file, 0, &[1; 8192]).is_ok() {
                Some(file)
            } else {
                None
            }
        }
        None => None,
    }
}

// Reads pieces of a file that is there.
fn read_pieces<T: Store>(store: &T, file: u32, rounds: u32) -> u32
    requires good { FilesGood (kernel_of (T.memory store.now)) }
    requires below { file < inode_count }
    requires file { (inode : Inode) × IsFileAt (kernel_of (T.memory store.now)) file inode }
{
    let mut sum = 0u32;
    let mut piece = [0; 4096];
    for round in 0..rounds {
        read_at(store, file, PLACE, &mut piece);
        sum = sum.wrapping_add(piece[(round % 4096) as usize] as u32);
    }
    sum
}

/// Reads 4,096 bytes across the end of a page in each round. The sum of one of the bytes of each.
pub fn read<T: Store>(store: &mut T, rounds: u32) -> u32
    requires good { FilesGood (kernel_of (T.memory store.old)) }
{
    match begin(store) {
        Some(file) => read_pieces(store, file, rounds),
        None => 0,
    }
}

// Writes pieces of a file that is there.
fn write_pieces<T: Store>(store: &mut T, file: u32, rounds: u32) -> u32
    requires good { FilesGood (kernel_of (T.memory store.old)) }
    requires below { file < inode_count }
    requires file { (inode : Inode) × IsFileAt (kernel_of (T.memory store.old)) file inode }
{
    let mut written = 0u32;
    let mut piece = [0; 4096];
    for round in 0..rounds {
        piece[(round % 4096) as usize] = (round % 256) as u8;
        if put(store, file, PLACE, &piece).is_ok() {
            written = written.wrapping_add(1);
        }
    }
    written
}

/// Writes 4,096 bytes across the end of a page in each round. How many rounds went well.
pub fn write<T: Store>(store: &mut T, rounds: u32) -> u32
    requires good { FilesGood (kernel_of (T.memory store.old)) }
{
    match begin(store) {
        Some(file) => write_pieces(store, file, rounds),
        None => 0,
    }
}
