//! The table of the 1,024 inodes.

ghost use Rattle.std.specs.Prelude.{◌≡◌, length};

use crate::inode::Inode;
use crate::places::free_places;
use std::alloc::{AllocError, Global};

/// The inode of each number, or None where it is free.
#[derive(Drop)]
pub struct Inodes {
    pub(crate) items: Vec<Option<Inode>>,
    ghost full: { length items.items ≡ 1024 },
}

impl Inodes {
    ghost use Rattle.std.specs.Prelude.{◌≡◌, ◌<◌, IfOk, IfSome, None, Some, option_map};
    ghost use Rattle.unix_model.specs.Tables.{at, with_at, nothing};
    ghost use Rattle.flat_files.specs.InodeView.{inode_of};
    ghost use Rattle.flat_files.specs.InodesView.{inodes_of};

    /// Inodes that are all free.
    #[tactic(auto, using(crate::proofs::SlotLaws::slots), unfolding(crate::specs::InodesView::inodes_of))]
    pub fn new(alloc: Global) -> Result<Inodes, AllocError>
        ensures { IfOk result (λ inodes. inodes_of inodes ≡ nothing) }
    {
        Ok(Inodes {
            items: free_places(alloc, 1024)?,
        })
    }

    /// Takes the inode out of a number, which is then free.
    #[tactic(auto, using(crate::proofs::SlotLaws::slots), unfolding(crate::specs::InodesView::inodes_of, unix_model::specs::Tables::at))]
    pub fn take(&mut self, number: u16) -> Option<Inode>
        requires { number < 1024 }
        ensures taken { option_map inode_of result ≡ at (inodes_of self.old) number }
        ensures free { inodes_of self.new ≡ with_at (inodes_of self.old) number None }
    {
        self.items[number as usize].take()
    }

    /// Puts an inode at a number.
    #[tactic(auto, using(crate::proofs::SlotLaws::slots), unfolding(crate::specs::InodesView::inodes_of))]
    pub fn put(&mut self, number: u16, inode: Inode)
        requires { number < 1024 }
        ensures { inodes_of self.new ≡ with_at (inodes_of self.old) number (Some (inode_of inode)) }
    {
        self.items[number as usize] = Some(inode);
    }

    /// The inode at a number.
    #[tactic(auto, unfolding(crate::specs::InodesView::inodes_of, unix_model::specs::Tables::at))]
    pub fn get(&self, number: u16) -> Option<&Inode>
        ensures value { option_map (λ inode. inode_of inode.now) result ≡ at (inodes_of self.now) number }
        ensures inside { IfSome result (λ _. number < 1024) }
    {
        if number < 1024 {
            self.items[number as usize].as_ref()
        } else {
            None
        }
    }
}
