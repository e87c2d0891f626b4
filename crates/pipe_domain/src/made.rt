//! Pipes are made.

ghost use Rattle.std.specs.Prelude.{◌≡◌, ℕ, ◌<◌, ◌≤◌, ◌+◌, IfOk, IfErr, MatchResult, []};
ghost use Rattle.kn_base.specs.Memory.{Memory};
ghost use Rattle.kernel_tables.specs.Blocks.{ChangesBlocks};
ghost use Rattle.kernel_tables.specs.Kernel.{Kernel, kernel_of};
ghost use Rattle.space_bank.specs.Bank.{BankGood};
ghost use Rattle.file_tables.specs.Rows.{InodesGood};
ghost use Rattle.file_tables.specs.Roots.{named_by};
ghost use Rattle.kernel_forest.specs.Trees.{TreesGood};
ghost use Rattle.kernel_machine.specs.Standing.{Standing};
ghost use Rattle.pipe_domain.specs.Made.{MakesNoPipe, MakesPipe, empty_pipe, made_blocks, refused_blocks};

use file_tables::{least_free_inode, set_inode};
use kernel_tables::{Inode, InodeKind};
use kn_base::Store;
use space_bank::{PageOwner, promise, take_page};
use unix_model::Errno;

// The inode of an empty pipe that nothing names, with this page.
fn empty_inode(page: u32) -> Inode
    ensures { result ≡ empty_pipe page }
{
    Inode {
        kind: InodeKind::Pipe,
        length: 0,
        entries: 0,
        opens: 0,
        root: page,
        parent: 0,
        start: 0,
    }
}

/// Makes an empty pipe, at the least free number of an inode: a page is promised and taken for it. No description is open on it
/// yet, which is for the caller to change, or to give it back.
///
/// # Errors
///
/// `Enfile` exactly where no number of an inode is free, and else `Enomem` exactly where one page more can't be promised. Nothing
/// has changed then (POSIX.1 pipe(2), narrowed).
pub fn new_pipe<T: Store>(store: &mut T) -> Result<u32, Errno>
    requires good { BankGood (kernel_of (T.memory store.old)) }
    requires inodes { InodesGood (kernel_of (T.memory store.old)).inodes }
    requires promises { let old = kernel_of (T.memory store.old) in old.machine.pages_taken ≤ old.machine.promised }
    ensures made { IfOk result (λ pipe. MakesPipe (kernel_of (T.memory store.old)) (kernel_of (T.memory store.new)) pipe) }
    ensures refused { IfErr result (λ errno. MakesNoPipe (kernel_of (T.memory store.old)) (kernel_of (T.memory store.new)) errno) }
    ensures standing { Standing (kernel_of (T.memory store.old)) → Standing (kernel_of (T.memory store.new)) }
    ensures good { BankGood (kernel_of (T.memory store.new)) }
    ensures inodes { InodesGood (kernel_of (T.memory store.new)).inodes }
    ensures trees { let old = kernel_of (T.memory store.old) in let new = kernel_of (T.memory store.new) in TreesGood old (named_by old.inodes) [] → TreesGood new (named_by new.inodes) [] }
    ensures blocks { MatchResult result (λ pipe. ChangesBlocks (T.blocks store.old) (T.blocks store.new) (made_blocks (kernel_of (T.memory store.new)) pipe)) (λ errno. ChangesBlocks (T.blocks store.old) (T.blocks store.new) (refused_blocks errno)) }
    ensures keeps { T.keeps store.old store.new }
{
    let pipe = match least_free_inode(store) {
        Some(pipe) => pipe,
        None => return Err(Errno::Enfile),
    };
    if !promise(store, 1) {
        return Err(Errno::Enomem);
    }
    match take_page(store, PageOwner::Pipe) {
        Some(page) => {
            set_inode(store, pipe, empty_inode(page.0));
            Ok(pipe)
        }
        None => unreachable!(),
    }
}
