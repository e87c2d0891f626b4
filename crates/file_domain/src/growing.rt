//! Files get longer.

ghost use Rattle.std.specs.Prelude.{◌≡◌, ℕ, ◌+◌, ◌-◌, ◌/◌, ◌<◌, ◌≤◌, IfOk, OnErr, Err};
ghost use Rattle.kn_base.specs.Memory.{Memory};
ghost use Rattle.kernel_tables.specs.declared.inode.Inode.{Inode};
ghost use Rattle.kernel_tables.specs.Kernel.{Kernel, kernel_of, Sized, IsSized, inode_count};
ghost use Rattle.unix_model.specs.declared.calls.Errno.{Errno};
ghost use Rattle.unix_model.specs.declared.calls.Errno.TheVariants.{Enospc};
ghost use Rattle.unix_model.specs.Numbers.{pages_of};
ghost use Rattle.file_trees.specs.Good.{FilesGood};
ghost use Rattle.file_domain.specs.Good.{IsFileAt};
ghost use Rattle.file_domain.specs.Effects.{Resizes, NoRoom};

use file_tables::{Inode, set_inode};
use kn_base::Store;
use space_bank::promise;
use unix_model::Errno;

/// How many pages hold so many bytes.
pub fn pages_of(length: u32) -> u32
    requires { length ≤ 4194304 }
    ensures { result ≡ pages_of length }
{
    length.div_ceil(4096)
}

/// Makes a file longer, with zeros behind its bytes, for which no page is taken. ENOSPC comes exactly where the pages that more
/// are promised have no room, and nothing has changed then.
pub fn grow<T: Store>(store: &mut T, file: u32, inode: Inode, length: u32) -> Result<(), Errno>
    requires good { FilesGood (kernel_of (T.memory store.old)) }
    requires number { file < inode_count }
    requires file { IsFileAt (kernel_of (T.memory store.old)) file inode }
    requires order { inode.length ≤ length }
    requires most { length ≤ 4194304 }
    ensures grown { IfOk result (λ done. Resizes (kernel_of (T.memory store.old)) (kernel_of (T.memory store.new)) file inode (record inode { length = length })) }
    ensures refused { OnErr result (NoRoom (kernel_of (T.memory store.old)) (kernel_of (T.memory store.new)) file inode length) }
    ensures errno { (errno : Errno) → result ≡ Err errno → errno ≡ Enospc }
    ensures none_taken { (kernel_of (T.memory store.new)).page_entries ≡ (kernel_of (T.memory store.old)).page_entries }
    ensures keeps { T.keeps store.old store.new }
{
    let more = pages_of(length) - pages_of(inode.length);
    if promise(store, more) {
        set_inode(store, file, Inode { length, ..inode });
        Ok(())
    } else {
        Err(Errno::Enospc)
    }
}
