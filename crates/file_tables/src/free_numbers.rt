//! The least free numbers of inodes and open descriptions.

ghost use Rattle.std.specs.Prelude.{◌≡◌, ℕ, ◌<◌, IsTrue, IfSome};
ghost use Rattle.kn_base.specs.Memory.{Memory};
ghost use Rattle.kernel_tables.specs.declared.row.Row.TheVariants.{Free};
ghost use Rattle.kernel_tables.specs.Kernel.{Kernel, kernel_of, Sized, IsSized, inode_count, inode_at, description_count, description_at};
ghost use Rattle.file_tables.specs.Rows.{InodesGood, DescriptionsGood};
ghost use Rattle.file_tables.specs.Numbers.{is_free_row, least_free_inode, least_free_description};

use kn_base::{PageId, Store};

/// No number is free.
#[derive(Clone, Copy, Debug, PartialEq, Eq)]
pub struct Full;

// Whether an inode number is free: the word of its kind is 0.
fn is_free_inode<T: Store>(store: &T, number: u32) -> bool
    requires sized { Sized (kernel_of (T.memory store.now)) }
    requires good { InodesGood (kernel_of (T.memory store.now)).inodes }
    requires number { number < inode_count }
    ensures answer { result ≡ is_free_row (inode_at (kernel_of (T.memory store.now)) number) }
    ensures free { IsTrue result → inode_at (kernel_of (T.memory store.now)) number ≡ Free }
{
    let mut kind = [0; 4];
    store.read_page(
        PageId(2 + number / 128),
        (32 * (number % 128)) as u16,
        &mut kind,
    );
    u32::from_le_bytes(kind) == 0
}

/// The least free inode number.
#[tactic(auto, using(unix_model::proofs::TableLaws::steps), unfolding(crate::specs::Numbers::least_free))]
pub fn least_free_inode<T: Store>(store: &T) -> Option<u32>
    requires sized { Sized (kernel_of (T.memory store.now)) }
    requires good { InodesGood (kernel_of (T.memory store.now)).inodes }
    ensures least { result ≡ least_free_inode (kernel_of (T.memory store.now)) }
    ensures below { IfSome result (λ number. number < inode_count) }
    ensures free { IfSome result (λ number. inode_at (kernel_of (T.memory store.now)) number ≡ Free) }
{
    for number in 0..1024 {
        if is_free_inode(store, number) {
            return Some(number);
        }
    }
    None
}

// Whether the number of a description is free: its first byte is 0.
fn is_free_description<T: Store>(store: &T, number: u16) -> bool
    requires sized { Sized (kernel_of (T.memory store.now)) }
    requires good { DescriptionsGood (kernel_of (T.memory store.now)).descriptions }
    requires number { number < description_count }
    ensures answer { result ≡ is_free_row (description_at (kernel_of (T.memory store.now)) number) }
    ensures free { IsTrue result → description_at (kernel_of (T.memory store.now)) number ≡ Free }
{
    let mut used = [0; 1];
    store.read_page(
        PageId(10 + number as u32 / 256),
        16 * (number % 256),
        &mut used,
    );
    used[0] == 0
}

/// The least free number of a description.
#[tactic(auto, using(unix_model::proofs::TableLaws::steps), unfolding(crate::specs::Numbers::least_free))]
pub fn least_free_description<T: Store>(store: &T) -> Option<u16>
    requires sized { Sized (kernel_of (T.memory store.now)) }
    requires good { DescriptionsGood (kernel_of (T.memory store.now)).descriptions }
    ensures least { result ≡ least_free_description (kernel_of (T.memory store.now)) }
    ensures below { IfSome result (λ number. number < description_count) }
    ensures free { IfSome result (λ number. description_at (kernel_of (T.memory store.now)) number ≡ Free) }
{
    for number in 0..2048 {
        if is_free_description(store, number) {
            return Some(number);
        }
    }
    None
}
