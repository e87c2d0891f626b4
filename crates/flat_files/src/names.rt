//! Names in directories: new ones, those that go, and those that move.

use crate::directory::Directory;
use crate::entry::Entry;
use crate::files::Files;
use crate::inode::Inode;
use crate::spot::Spot;
use std::alloc::{AllocError, Global};

impl Files {
    ghost use Rattle.std.specs.Prelude.{◌≡◌, ◌<◌, ◌≤◌, ℕ, OnOk, None, Some, [], false, length};
    ghost use Rattle.unix_model.specs.Files as model;
    ghost use Rattle.unix_model.specs.Files.{inode_pages, is_full, is_within, has_names, parent_of, places_of, with_entry, with_name, with_name_moved, with_place, with_places, without_name};
    ghost use Rattle.unix_model.specs.NameCalls.{moved, removed, with_parent};
    ghost use Rattle.unix_model.specs.Tables.{at};
    ghost use Rattle.flat_files.specs.EntryView.{entry_of, place_of};
    ghost use Rattle.flat_files.specs.FilesView.{files_of};
    ghost use Rattle.flat_files.specs.InodeView.{inode_of};
    ghost use Rattle.flat_files.specs.SpotView.{spot_of};

    /// Whether no name more goes into a directory.
    #[tactic(auto, unfolding(unix_model::specs::Limits::most_places))]
    pub fn is_full(&self, directory: u16) -> bool
        ensures { result ≡ is_full (files_of self.now) directory }
    {
        match self.inode(directory) {
            Some(inode) => inode.is_full(),
            None => false,
        }
    }

    /// Whether a directory has a name.
    pub fn has_names(&self, directory: u16) -> bool
        ensures { result ≡ has_names (at (files_of self.now).inodes directory) }
    {
        match self.inode(directory) {
            Some(inode) => inode.has_names(),
            None => false,
        }
    }

    /// The pages that a directory promises with a name more.
    pub fn pages_with_name(&self, directory: u16) -> u32
        ensures pages { (parent : ℕ) (entry : model.Entry) → result ≡ inode_pages (Some (model.Directory parent (with_entry (places_of (at (files_of self.now).inodes directory)) entry))) }
        ensures few { result ≤ 9 }
    {
        match self.inode(directory) {
            Some(inode) => inode.pages_with_entry(),
            None => 1,
        }
    }

    /// Whether a directory is another, or below it.
    #[tactic(auto, using(crate::proofs::ParentLaws::within))]
    pub fn is_within(&self, outer: u16, directory: u16) -> bool
        ensures { result ≡ is_within (files_of self.now).inodes outer 1024 directory }
    {
        let mut place = directory;
        let mut steps = 1024u16;
        while steps > 0 {
            if place == outer {
                return true;
            }
            place = self.parent_of(place);
            steps -= 1;
        }
        place == outer
    }

    /// Adds a name to a directory that isn't full: in the first hole, or else in a new place at the end.
    #[tactic(auto, using(unix_model::proofs::TableLaws::tables))]
    pub fn add_name(
        &mut self,
        alloc: Global,
        directory: u16,
        entry: Entry,
    ) -> Result<(), AllocError>
        requires inside { directory < 1024 }
        requires place { is_full (files_of self.old) directory ≡ false }
        ensures { OnOk result (files_of self.new ≡ with_name (files_of self.old) directory entry.name.items entry.inode) }
    {
        let mut changed = self.take_directory(alloc, directory);
        changed.add(entry)?;
        self.set_inode(directory, Inode::Directory(changed));
        Ok(())
    }

    /// Changes the first place of a directory with this name.
    #[tactic(auto, using(unix_model::proofs::TableLaws::tables))]
    fn set_place(&mut self, alloc: Global, directory: u16, name: &[u8], place: Option<Entry>)
        requires { directory < 1024 }
        ensures { files_of self.new ≡ with_places (files_of self.old) directory (with_place (places_of (at (files_of self.old).inodes directory)) name.now (place_of place)) }
    {
        let mut changed = self.take_directory(alloc, directory);
        changed.set(name, place);
        self.set_inode(directory, Inode::Directory(changed));
    }

    /// Takes a name away from a directory.
    pub fn remove_name(&mut self, alloc: Global, directory: u16, name: &[u8])
        requires { directory < 1024 }
        ensures { files_of self.new ≡ without_name (files_of self.old) directory name.now }
    {
        self.set_place(alloc, directory, name, None);
    }

    /// Changes the first place of a directory with a name to an entry of the same name.
    pub fn move_name(
        &mut self,
        alloc: Global,
        directory: u16,
        name: &[u8],
        inode: u16,
    ) -> Result<(), AllocError>
        requires inside { directory < 1024 }
        requires short { length name.now ≤ 27 }
        requires below { inode < 1024 }
        ensures { OnOk result (files_of self.new ≡ with_name_moved (files_of self.old) directory name.now inode) }
    {
        let entry = Entry {
            name: Vec::from_slice(alloc, name)?,
            inode,
        };
        self.set_place(alloc, directory, name, Some(entry));
        Ok(())
    }

    /// Gives an inode another parent, where it is a directory.
    #[tactic(auto, using(unix_model::proofs::TableLaws::tables, crate::proofs::ParentLaws::parents))]
    pub fn set_parent(&mut self, alloc: Global, inode: u16, parent: u16)
        requires inside { inode < 1024 }
        requires below { parent < 1024 }
        ensures { files_of self.new ≡ with_parent (files_of self.old) inode parent (at (files_of self.old).inodes inode) }
    {
        if self.is_directory(inode) {
            let places = self.take_directory(alloc, inode).places;
            self.set_inode(inode, Inode::Directory(Directory { parent, places }));
        }
    }

    /// Takes the name of a spot away, and its inode unless that lives on.
    pub fn remove(&mut self, alloc: Global, spot: Spot, inode: u16)
        requires { inode < 1024 }
        ensures { files_of self.new ≡ removed (files_of self.old) (spot_of spot.entry) inode }
    {
        self.remove_name(alloc, spot.directory, spot.name);
        self.drop_inode(inode);
    }

    /// Takes the old name of an inode away, and gives it its new parent where it is a directory.
    pub fn move_inode(&mut self, alloc: Global, from: Spot, to: Spot, inode: u16)
        requires { inode < 1024 }
        ensures { files_of self.new ≡ moved (files_of self.old) (spot_of from.entry) (spot_of to.entry) inode }
    {
        self.remove_name(alloc, from.directory, from.name);
        self.set_parent(alloc, inode, to.directory);
    }

    /// Makes an inode without names, with a name in a directory that isn't full.
    #[tactic(auto, using(crate::proofs::ParentLaws::made))]
    pub fn make(
        &mut self,
        alloc: Global,
        spot: Spot,
        number: u16,
        inode: Inode,
    ) -> Result<(), AllocError>
        requires inside { number < 1024 }
        requires empty { places_of (Some (inode_of inode)) ≡ [] }
        requires place { is_full (files_of self.old) spot.directory ≡ false }
        ensures { OnOk result (files_of self.new ≡ with_name (model.with_inode (files_of self.old) number (inode_of inode)) spot.entry.directory spot.entry.name.now number) }
    {
        let entry = Entry {
            name: Vec::from_slice(alloc, spot.name)?,
            inode: number,
        };
        self.set_inode(number, inode);
        self.add_name(alloc, spot.directory, entry)
    }
}
