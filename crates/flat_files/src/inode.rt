//! Inodes.

ghost use Rattle.std.specs.Prelude.{◌≡◌, ◌<◌, ◌≤◌, ℕ, IfSome, Some, length, map, option_map};
ghost use Rattle.std.specs.List.{count_by};
ghost use Rattle.unix_model.specs.Files as model;
ghost use Rattle.unix_model.specs.Files.{entry_names, file_bytes, inode_length, inode_named, parent_of, places_of, with_entry};
ghost use Rattle.flat_files.specs.EntryView.{place_of};
ghost use Rattle.flat_files.specs.InodeView.{inode_of};
ghost use Rattle.flat_files.specs.Places.{is_full_with};

use crate::contents::Contents;
use crate::directory::Directory;
use crate::pipe::Pipe;
use std::alloc::Global;

/// What an inode number stands for.
#[derive(Drop)]
pub enum Inode {
    File(Contents),
    Directory(Directory),
    Pipe(Pipe),
    Console,
}

impl Inode {
    /// Whether it is a directory with an entry of this inode.
    pub(crate) fn names(&self, inode: u16) -> bool
        ensures { result ≡ model.directory_names inode (Some (inode_of self.now)) }
    {
        match self {
            Inode::Directory(directory) => directory.names(inode),
            Inode::File(_) => false,
            Inode::Pipe(_) => false,
            Inode::Console => false,
        }
    }

    /// How many entries of this inode it has as a directory.
    pub(crate) fn count(&self, inode: u16) -> usize
        ensures count { result ≡ count_by (entry_names inode) (places_of (Some (inode_of self.now))) }
        ensures few { result ≤ 1024 }
    {
        match self {
            Inode::Directory(directory) => directory.count(inode),
            Inode::File(_) => 0,
            Inode::Pipe(_) => 0,
            Inode::Console => 0,
        }
    }

    /// Whether it is a directory.
    pub fn is_directory(&self) -> bool
        ensures { result ≡ model.is_directory (Some (inode_of self.now)) }
    {
        match self {
            Inode::Directory(_) => true,
            Inode::File(_) => false,
            Inode::Pipe(_) => false,
            Inode::Console => false,
        }
    }

    /// Whether it is a directory with a name.
    pub(crate) fn has_names(&self) -> bool
        ensures { result ≡ model.has_names (Some (inode_of self.now)) }
    {
        match self {
            Inode::Directory(directory) => directory.has_names(),
            Inode::File(_) => false,
            Inode::Pipe(_) => false,
            Inode::Console => false,
        }
    }

    /// The parent of a directory, and 0 for anything else.
    pub fn parent(&self) -> u16
        ensures parent { result ≡ parent_of (Some (inode_of self.now)) }
        ensures below { result < 1024 }
    {
        match self {
            Inode::Directory(directory) => directory.parent,
            Inode::File(_) => 0,
            Inode::Pipe(_) => 0,
            Inode::Console => 0,
        }
    }

    /// How many bytes it has; a place of a directory has 32.
    #[tactic(auto, using(crate::proofs::SlotLaws::lengths))]
    pub fn length(&self) -> u32
        ensures length { result ≡ inode_length (Some (inode_of self.now)) }
        ensures few { result ≤ 4194304 }
    {
        match self {
            Inode::File(contents) => contents.bytes.len() as u32,
            Inode::Directory(directory) => 32 * directory.places.len() as u32,
            Inode::Pipe(pipe) => pipe.bytes.len() as u32,
            Inode::Console => 0,
        }
    }

    /// The pages that it promises.
    #[tactic(auto, using(crate::proofs::SlotLaws::lengths))]
    pub fn pages(&self) -> u32
        ensures pages { result ≡ model.inode_pages (Some (inode_of self.now)) }
        ensures few { result ≤ 1024 }
    {
        match self {
            Inode::File(contents) => contents.bytes.len().div_ceil(4096) as u32,
            Inode::Directory(directory) => (32 * directory.places.len()).div_ceil(4096) as u32,
            Inode::Pipe(_) => 1,
            Inode::Console => 0,
        }
    }

    /// The pages that a directory promises that has its places and an entry more.
    pub(crate) fn pages_with_entry(&self) -> u32
        ensures pages { (parent : ℕ) (entry : model.Entry) → result ≡ model.inode_pages (Some (model.Directory parent (with_entry (places_of (Some (inode_of self.now))) entry))) }
        ensures few { result ≤ 9 }
    {
        match self {
            Inode::Directory(directory) => {
                (32 * directory.places_with_entry()).div_ceil(4096) as u32
            }
            Inode::File(_) => 1,
            Inode::Pipe(_) => 1,
            Inode::Console => 1,
        }
    }

    /// Whether a directory with its places has none for an entry more.
    #[tactic(auto, unfolding(unix_model::specs::Limits::most_places))]
    pub(crate) fn is_full(&self) -> bool
        ensures { result ≡ is_full_with (places_of (Some (inode_of self.now))) }
    {
        match self {
            Inode::Directory(directory) => directory.is_full(),
            Inode::File(_) => false,
            Inode::Pipe(_) => false,
            Inode::Console => false,
        }
    }

    /// The directory, or one without places whose parent is 0 where it is none.
    pub(crate) fn into_directory(self, alloc: Global) -> Directory
        ensures parent { result.parent ≡ parent_of (Some (inode_of self)) }
        ensures places { map place_of result.places.items ≡ places_of (Some (inode_of self)) }
    {
        match self {
            Inode::Directory(directory) => directory,
            Inode::File(_) | Inode::Pipe(_) | Inode::Console => Directory {
                parent: 0,
                places: Vec::new(alloc),
            },
        }
    }

    /// The bytes of a file.
    pub fn bytes(&self) -> Option<&[u8]>
        ensures bytes { option_map (λ bytes. bytes.now) result ≡ file_bytes (Some (inode_of self.now)) }
        ensures few { IfSome result (λ bytes. length bytes.now ≤ 4194304) }
    {
        match self {
            Inode::File(contents) => Some(&contents.bytes),
            Inode::Directory(_) => None,
            Inode::Pipe(_) => None,
            Inode::Console => None,
        }
    }

    /// The inode of the first place with this name, where it is a directory.
    pub(crate) fn inode_named(&self, name: &[u8]) -> Option<u16>
        ensures inode { result ≡ inode_named (places_of (Some (inode_of self.now))) name.now }
        ensures below { IfSome result (λ inode. inode < 1024) }
    {
        match self {
            Inode::Directory(directory) => directory.inode_named(name),
            Inode::File(_) => None,
            Inode::Pipe(_) => None,
            Inode::Console => None,
        }
    }
}
