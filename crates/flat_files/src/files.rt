//! Files and open descriptions by their numbers.

ghost use Rattle.std.specs.Prelude.{◌≡◌};
ghost use Rattle.unix_model.specs.Files.{inode_pages};
ghost use Rattle.unix_model.specs.Tables.{at, sum_below};
ghost use Rattle.flat_files.specs.InodesView.{inodes_of};

use crate::description::Description;
use crate::descriptions::Descriptions;
use crate::directory::Directory;
use crate::inode::Inode;
use crate::inodes::Inodes;
use std::alloc::{AllocError, Global};

/// The inodes and the open descriptions by their numbers, and the pages that the inodes promise.
#[derive(Drop)]
pub struct Files {
    pub(crate) inodes: Inodes,
    pub(crate) descriptions: Descriptions,
    pub(crate) pages: u32,
    ghost counted: { pages ≡ sum_below (λ n. inode_pages (at (inodes_of inodes) n)) 1024 },
}

impl Files {
    ghost use Rattle.std.specs.Prelude.{◌≡◌, ◌<◌, ◌≤◌, ℕ, IfOk, IfSome, None, Some, true, length, map, option_map};
    ghost use Rattle.unix_model.specs.Boot.{first_inodes};
    ghost use Rattle.unix_model.specs.Files.{inode_length, parent_of, places_of, with_description};
    ghost use Rattle.unix_model.specs.Files as model;
    ghost use Rattle.unix_model.specs.Tables.{at, with_at, nothing, sum_below};
    ghost use Rattle.flat_files.specs.FilesView.{files_of};
    ghost use Rattle.flat_files.specs.EntryView.{place_of};
    ghost use Rattle.flat_files.specs.InodeView.{inode_of, description_of};

    /// The console and the empty root, and no description.
    #[tactic(auto, unfolding(unix_model::specs::Boot::first_inodes))]
    pub fn new(alloc: Global) -> Result<Files, AllocError>
        ensures { IfOk result (λ files. files_of files ≡ record { inodes = first_inodes; descriptions = nothing }) }
    {
        let mut files = Files::nothing(alloc)?;
        files.set_inode(0, Inode::Console);
        files.set_inode(
            1,
            Inode::Directory(Directory {
                parent: 1,
                places: Vec::new(alloc),
            }),
        );
        Ok(files)
    }

    /// No inode and no description.
    #[tactic(auto, using(unix_model::proofs::RoomLaws::no_pages))]
    fn nothing(alloc: Global) -> Result<Files, AllocError>
        ensures { IfOk result (λ files. files_of files ≡ record { inodes = nothing; descriptions = nothing }) }
    {
        let inodes = Inodes::new(alloc)?;
        let descriptions = Descriptions::new(alloc)?;
        Ok(Files {
            inodes,
            descriptions,
            pages: 0,
        })
    }

    /// An open description.
    pub fn description(&self, number: u16) -> Option<Description>
        ensures value { option_map description_of result ≡ at (files_of self.now).descriptions number }
        ensures inside { IfSome result (λ _. number < 2048) }
    {
        self.descriptions.get(number)
    }

    /// An inode.
    pub fn inode(&self, number: u16) -> Option<&Inode>
        ensures value { option_map (λ inode. inode_of inode.now) result ≡ at (files_of self.now).inodes number }
        ensures inside { IfSome result (λ _. number < 1024) }
    {
        self.inodes.get(number)
    }

    /// Whether an inode is a directory.
    pub fn is_directory(&self, number: u16) -> bool
        ensures directory { result ≡ model.is_directory (at (files_of self.now).inodes number) }
        ensures inside { result ≡ true → number < 1024 }
    {
        match self.inode(number) {
            Some(inode) => inode.is_directory(),
            None => false,
        }
    }

    /// The parent of a directory, and 0 for anything else.
    pub fn parent_of(&self, number: u16) -> u16
        ensures parent { result ≡ parent_of (at (files_of self.now).inodes number) }
        ensures below { result < 1024 }
    {
        match self.inode(number) {
            Some(inode) => inode.parent(),
            None => 0,
        }
    }

    /// How many bytes an inode has; a place of a directory has 32.
    pub fn length_of(&self, number: u16) -> u32
        ensures length { result ≡ inode_length (at (files_of self.now).inodes number) }
        ensures few { result ≤ 4194304 }
    {
        match self.inode(number) {
            Some(inode) => inode.length(),
            None => 0,
        }
    }

    /// Puts an inode at a number.
    #[tactic(auto, using(unix_model::proofs::RoomLaws::inode_counts))]
    pub fn set_inode(&mut self, number: u16, inode: Inode)
        requires { number < 1024 }
        ensures { files_of self.new ≡ model.with_inode (files_of self.old) number (inode_of inode) }
    {
        let pages = self.pages - self.inode_pages(number) + inode.pages();
        self.inodes.put(number, inode);
        self.pages = pages;
    }

    /// Takes the inode out of a number, which is then free.
    #[tactic(auto, using(unix_model::proofs::RoomLaws::inode_counts))]
    pub fn take_inode(&mut self, number: u16) -> Option<Inode>
        requires { number < 1024 }
        ensures taken { option_map inode_of result ≡ at (files_of self.old).inodes number }
        ensures free { files_of self.new ≡ record (files_of self.old) { inodes = with_at (files_of self.old).inodes number None } }
    {
        let pages = self.pages - self.inode_pages(number);
        let inode = self.inodes.take(number);
        self.pages = pages;
        inode
    }

    /// Takes the directory out of a number, or one without places whose parent is 0 where there is none.
    pub(crate) fn take_directory(&mut self, alloc: Global, number: u16) -> Directory
        requires { number < 1024 }
        ensures parent { result.parent ≡ parent_of (at (files_of self.old).inodes number) }
        ensures places { map place_of result.places.items ≡ places_of (at (files_of self.old).inodes number) }
        ensures free { files_of self.new ≡ record (files_of self.old) { inodes = with_at (files_of self.old).inodes number None } }
    {
        match self.take_inode(number) {
            Some(inode) => inode.into_directory(alloc),
            None => Directory {
                parent: 0,
                places: Vec::new(alloc),
            },
        }
    }

    /// The pages that an inode promises.
    pub fn inode_pages(&self, number: u16) -> u32
        ensures pages { result ≡ model.inode_pages (at (files_of self.now).inodes number) }
        ensures few { result ≤ 1024 }
    {
        match self.inode(number) {
            Some(inode) => inode.pages(),
            None => 0,
        }
    }

    /// The pages that all inodes promise.
    pub fn pages(&self) -> u32
        ensures pages { result ≡ sum_below (λ number. model.inode_pages (at (files_of self.now).inodes number)) 1024 }
        ensures few { result ≤ 1048576 }
    {
        self.pages
    }

    /// Opens a description at a number.
    pub fn set_description(&mut self, number: u16, description: Description)
        requires { number < 2048 }
        ensures { files_of self.new ≡ with_description (files_of self.old) number (description_of description) }
    {
        self.descriptions.set(number, Some(description));
    }

    /// Takes a description away.
    pub(crate) fn remove_description(&mut self, number: u16)
        requires { number < 2048 }
        ensures { files_of self.new ≡ record (files_of self.old) { descriptions = with_at (files_of self.old).descriptions number None } }
    {
        self.descriptions.set(number, None);
    }
}
