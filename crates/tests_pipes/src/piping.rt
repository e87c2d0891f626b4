//! A pipe with both ends open in one description, and steps on it.

ghost use Rattle.std.specs.Prelude.{◌≡◌, ℕ, ◌<◌, ◌≤◌, length};
ghost use Rattle.kn_base.specs.Memory.{Memory};
ghost use Rattle.kernel_tables.specs.Kernel.{Kernel, kernel_of};
ghost use Rattle.space_bank.specs.Bank.{BankGood};
ghost use Rattle.file_tables.specs.Rows.{DescriptionsGood, InodesGood};
ghost use Rattle.pipe_domain.specs.Pipes.{PipeGood};

use super::counted::count_opens;
use file_tables::{Description, Inode, inode_of, new_description, set_inode};
use kn_base::Store;
use pipe_domain::new_pipe;
use std::process::Abort;

/// An empty pipe on which no description is open.
pub fn empty_pipe<T: Store>(rt: &impl Abort, store: &mut T) -> u32
    requires bank { BankGood (kernel_of (T.memory store.old)) }
    requires inodes { InodesGood (kernel_of (T.memory store.old)).inodes }
    requires descriptions { DescriptionsGood (kernel_of (T.memory store.old)).descriptions }
    requires promises { let old = kernel_of (T.memory store.old) in old.machine.pages_taken ≤ old.machine.promised }
    ensures { PipeGood (kernel_of (T.memory store.new)) result }
{
    match new_pipe(store) {
        Ok(pipe) => {
            match inode_of(store, pipe) {
                Some(inode) => assert!(rt; inode.opens == count_opens(store, pipe)),
                None => panic!(rt; "no inode"),
            }
            pipe
        }
        Err(_errno) => panic!(rt; "no pipe"),
    }
}

/// Opens both ends of a pipe by one description.
pub fn open_both<T: Store>(rt: &impl Abort, store: &mut T, pipe: u32)
    requires { PipeGood (kernel_of (T.memory store.old)) pipe }
    ensures { PipeGood (kernel_of (T.memory store.new)) pipe }
{
    let both = Description {
        readable: true,
        writable: true,
        append: false,
        inode: pipe,
        offset: 0,
        descriptors: 1,
    };
    match new_description(store, both) {
        Ok(_number) => {}
        Err(_full) => panic!(rt; "no description"),
    }
    let inode = match inode_of(store, pipe) {
        Some(inode) => inode,
        None => panic!(rt; "no inode"),
    };
    let opens = count_opens(store, pipe);
    set_inode(store, pipe, Inode { opens, ..inode });
}
