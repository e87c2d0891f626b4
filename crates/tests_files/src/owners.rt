//! Whose the pages of files and directories are.

ghost use Rattle.kn_base.specs.Memory.{Memory};
ghost use Rattle.kernel_tables.specs.Kernel.{Kernel, kernel_of, Sized, IsSized};
ghost use Rattle.file_trees.specs.Good.{FilesGood};

use crate::directories::{numbered, remove};
use crate::guarded::{cut, write};
use crate::names::{add_names, new_directory};
use crate::room::{machine, new_file};
use kernel_tables::{Entry, PageOwner, bank_size, page_entry};
use kn_base::Store;
use std::test::Fail;

// How many pages of the bank are owned by files, and how many by directories.
fn owned<T: Store>(store: &T) -> (u32, u32)
    requires good { FilesGood (kernel_of (T.memory store.now)) }
{
    let mut files: u32 = 0;
    let mut directories: u32 = 0;
    for n in 0..bank_size(store) {
        match page_entry(store, n) {
            Entry::Taken {
                owner: PageOwner::File,
                ..
            } => files = files.saturating_add(1),
            Entry::Taken {
                owner: PageOwner::Directory,
                ..
            } => directories = directories.saturating_add(1),
            _ => {}
        }
    }
    (files, directories)
}

#[test]
fn pages_of_files_are_files_and_those_of_directories_directories(
    rt: HostRuntime,
) -> Result<(), Fail> {
    let mut store = machine(rt.alloc(), 64)?;
    let file = new_file(&rt, &mut store);
    let dir = new_directory(&rt, &mut store);
    assert!(rt; owned(&store) == (0, 0));
    assert!(rt; write(&mut store, file, 4094, b"abcd") == Ok(4));
    assert!(rt; owned(&store) == (2, 0));
    add_names(&rt, &mut store, dir, file, 129);
    assert!(rt; owned(&store) == (2, 2));
    assert!(rt; remove(&mut store, dir, &numbered(7)) == Ok(file));
    assert!(rt; cut(&mut store, file, 4095) == Ok(()));
    assert!(rt; owned(&store) == (1, 2));
    Ok(())
}
