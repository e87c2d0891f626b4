//! The tables of files of a new machine, until no number is free and some are again.

ghost use Rattle.std.specs.Prelude.{◌≡◌, ℕ, ◌<◌, ◌≤◌, IfOk};
ghost use Rattle.kn_base.specs.Memory.{Memory};
ghost use Rattle.kernel_tables.specs.Kernel.{Kernel, kernel_of, Sized, IsSized, first_page, node_count, inode_count, description_count};
ghost use Rattle.obj_store.specs.Store.{ram_memory};
ghost use Rattle.file_tables.specs.Rows.{InodesGood, DescriptionsGood, IsDescription};

use file_tables::{
    Description, Full, Inode, InodeKind, description_of, free_description, free_inode, inode_of,
    new_description, new_inode, set_description, set_inode,
};
use kn_base::Store;
use obj_store::{NoMemory, RamStore};
use space_bank::setup;
use std::alloc::Global;
use std::process::Abort;
use std::test::Fail;

// A new machine of 64 pages, with 100 turns of each process to a round.
#[tactic(auto, unfolding(kernel_tables::specs::Kernel::first_page))]
fn machine(alloc: Global) -> Result<RamStore, Fail>
    ensures sized { IfOk result (λ store. Sized (kernel_of (ram_memory store))) }
    ensures inodes { IfOk result (λ store. InodesGood (kernel_of (ram_memory store)).inodes) }
    ensures descriptions { IfOk result (λ store. DescriptionsGood (kernel_of (ram_memory store)).descriptions) }
{
    match RamStore::new(alloc, 87, 1552) {
        Ok(mut store) => {
            setup(&mut store, 64, 100);
            Ok(store)
        }
        Err(NoMemory) => Err(Fail::from(NoMemory)),
    }
}

const CONSOLE: Inode = Inode {
    kind: InodeKind::Console,
    length: 0,
    entries: 0,
    opens: 0,
    root: 0,
    parent: 0,
    start: 0,
};

const ROOT: Inode = Inode {
    kind: InodeKind::Dir,
    length: 0,
    entries: 1,
    opens: 0,
    root: 0,
    parent: 1,
    start: 0,
};

const FILE: Inode = Inode {
    kind: InodeKind::File,
    length: 0,
    entries: 0,
    opens: 0,
    root: 0,
    parent: 0,
    start: 0,
};

// A description of the root directory that is open for reading.
fn opened() -> Description
    ensures { IsDescription result }
{
    Description {
        readable: true,
        writable: false,
        append: false,
        inode: 1,
        offset: 0,
        descriptors: 1,
    }
}

// A new file gets this number.
fn next_file<T: Store>(rt: &impl Abort, store: &mut T, number: u32)
    requires sized { Sized (kernel_of (T.memory store.old)) }
    requires good { InodesGood (kernel_of (T.memory store.old)).inodes }
    ensures sized { Sized (kernel_of (T.memory store.new)) }
    ensures good { InodesGood (kernel_of (T.memory store.new)).inodes }
{
    assert!(rt; new_inode(store, InodeKind::File) == Ok(number));
}

// Files get all numbers from 2 on, until none is left.
fn take_all_inodes<T: Store>(rt: &impl Abort, store: &mut T)
    requires sized { Sized (kernel_of (T.memory store.old)) }
    requires good { InodesGood (kernel_of (T.memory store.old)).inodes }
    ensures sized { Sized (kernel_of (T.memory store.new)) }
    ensures good { InodesGood (kernel_of (T.memory store.new)).inodes }
{
    for number in 2..1024 {
        next_file(rt, store, number);
    }
    assert!(rt; new_inode(store, InodeKind::Dir) == Err(Full));
}

#[test]
fn inodes_are_numbered_from_the_console_on(rt: HostRuntime) -> Result<(), Fail> {
    let mut store = machine(rt.alloc())?;
    assert!(rt; inode_of(&store, 0) == Some(CONSOLE));
    assert!(rt; inode_of(&store, 1) == Some(ROOT));
    assert!(rt; inode_of(&store, 2).is_none());
    assert!(rt; inode_of(&store, 1023).is_none());
    take_all_inodes(&rt, &mut store);
    assert!(rt; inode_of(&store, 1023) == Some(FILE));
    free_inode(&mut store, 700);
    free_inode(&mut store, 20);
    assert!(rt; inode_of(&store, 20).is_none());
    next_file(&rt, &mut store, 20);
    next_file(&rt, &mut store, 700);
    assert!(rt; new_inode(&mut store, InodeKind::Pipe) == Err(Full));
    Ok(())
}

#[test]
fn an_inode_is_what_was_written(rt: HostRuntime) -> Result<(), Fail> {
    let mut store = machine(rt.alloc())?;
    let longest = Inode {
        length: 4_194_304,
        opens: 3,
        root: 15,
        ..FILE
    };
    set_inode(&mut store, 1023, longest);
    assert!(rt; inode_of(&store, 1023) == Some(longest));
    assert!(rt; inode_of(&store, 1022).is_none());
    next_file(&rt, &mut store, 2);
    Ok(())
}

// A new description gets this number.
fn next_description<T: Store>(rt: &impl Abort, store: &mut T, number: u16)
    requires sized { Sized (kernel_of (T.memory store.old)) }
    requires good { DescriptionsGood (kernel_of (T.memory store.old)).descriptions }
    ensures sized { Sized (kernel_of (T.memory store.new)) }
    ensures good { DescriptionsGood (kernel_of (T.memory store.new)).descriptions }
{
    assert!(rt; new_description(store, opened()) == Ok(number));
}

// Descriptions get all 2,048 numbers, until none is left.
fn take_all_descriptions<T: Store>(rt: &impl Abort, store: &mut T)
    requires sized { Sized (kernel_of (T.memory store.old)) }
    requires good { DescriptionsGood (kernel_of (T.memory store.old)).descriptions }
    ensures sized { Sized (kernel_of (T.memory store.new)) }
    ensures good { DescriptionsGood (kernel_of (T.memory store.new)).descriptions }
{
    for number in 0..2048 {
        next_description(rt, store, number);
    }
    assert!(rt; new_description(store, opened()) == Err(Full));
}

#[test]
fn descriptions_get_the_least_free_numbers(rt: HostRuntime) -> Result<(), Fail> {
    let mut store = machine(rt.alloc())?;
    assert!(rt; description_of(&store, 0).is_none());
    take_all_descriptions(&rt, &mut store);
    assert!(rt; description_of(&store, 2047) == Some(opened()));
    free_description(&mut store, 2047);
    free_description(&mut store, 0);
    assert!(rt; description_of(&store, 0).is_none());
    next_description(&rt, &mut store, 0);
    next_description(&rt, &mut store, 2047);
    assert!(rt; new_description(&mut store, opened()) == Err(Full));
    Ok(())
}

#[test]
fn a_description_is_what_was_written(rt: HostRuntime) -> Result<(), Fail> {
    let mut store = machine(rt.alloc())?;
    let moved = Description {
        writable: true,
        append: true,
        offset: 0x1234,
        descriptors: 2,
        ..opened()
    };
    set_description(&mut store, 300, moved);
    assert!(rt; description_of(&store, 300) == Some(moved));
    assert!(rt; description_of(&store, 299).is_none());
    Ok(())
}
