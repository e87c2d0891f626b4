//! What names an inode, and what lives on.

use crate::files::Files;

impl Files {
    ghost use Rattle.std.specs.Prelude.{◌≡◌, ◌<◌, ◌≤◌, None};
    ghost use Rattle.std.specs.List.{count_by};
    ghost use Rattle.unix_model.specs.Files as model;
    ghost use Rattle.unix_model.specs.Tables.{at, with_at};
    ghost use Rattle.flat_files.specs.FilesView.{files_of};

    /// Whether some directory has an entry of this inode.
    #[tactic(auto, using(unix_model::proofs::TableLaws::steps))]
    fn is_linked(&self, inode: u16) -> bool
        ensures { result ≡ model.is_linked (files_of self.now).inodes inode }
    {
        let mut found = false;
        for number in 0..1024u16 {
            found = found || self.inode_names(number, inode);
        }
        found
    }

    /// Whether an inode is a directory with an entry of another.
    fn inode_names(&self, number: u16, inode: u16) -> bool
        ensures { result ≡ model.directory_names inode (at (files_of self.now).inodes number) }
    {
        match self.inode(number) {
            Some(directory) => directory.names(inode),
            None => false,
        }
    }

    /// How many places name an inode, and one more for the root.
    #[tactic(auto, using(unix_model::proofs::TableLaws::steps), unfolding(unix_model::specs::Files::links))]
    pub fn links(&self, inode: u16) -> u32
        ensures links { result ≡ model.links (files_of self.now).inodes inode }
    {
        let mut links = 0;
        for number in 0..1024u16 {
            links += self.inode_count(number, inode);
        }
        if inode == 1 { links + 1 } else { links }
    }

    /// How many entries of another inode an inode has as a directory.
    fn inode_count(&self, number: u16, inode: u16) -> u32
        ensures count { result ≡ count_by (model.entry_names inode) (model.places_of (at (files_of self.now).inodes number)) }
        ensures few { result ≤ 1024 }
    {
        match self.inode(number) {
            Some(directory) => directory.count(inode) as u32,
            None => 0,
        }
    }

    /// Whether some description is open on this inode.
    #[tactic(auto, using(unix_model::proofs::TableLaws::steps))]
    fn is_open(&self, inode: u16) -> bool
        ensures { result ≡ model.is_open (files_of self.now).descriptions inode }
    {
        let mut found = false;
        for number in 0..2048u16 {
            found = found || self.description_names(number, inode);
        }
        found
    }

    /// Whether a description is open on this inode.
    fn description_names(&self, number: u16, inode: u16) -> bool
        ensures { result ≡ model.description_names inode (at (files_of self.now).descriptions number) }
    {
        match self.description(number) {
            Some(description) => description.inode == inode,
            None => false,
        }
    }

    /// Whether some description is open on this inode for writing.
    #[tactic(auto, using(unix_model::proofs::TableLaws::steps))]
    pub fn has_writer(&self, inode: u16) -> bool
        ensures { result ≡ model.has_writer (files_of self.now) inode }
    {
        let mut found = false;
        for number in 0..2048u16 {
            found = found || self.writes_inode(number, inode);
        }
        found
    }

    /// Whether some description is open on this inode for reading.
    #[tactic(auto, using(unix_model::proofs::TableLaws::steps))]
    pub fn has_reader(&self, inode: u16) -> bool
        ensures { result ≡ model.has_reader (files_of self.now) inode }
    {
        let mut found = false;
        for number in 0..2048u16 {
            found = found || self.reads_inode(number, inode);
        }
        found
    }

    /// Whether a description is open on this inode for reading.
    fn reads_inode(&self, number: u16, inode: u16) -> bool
        ensures { result ≡ model.reads_inode inode (at (files_of self.now).descriptions number) }
    {
        match self.description(number) {
            Some(description) => description.inode == inode && description.readable,
            None => false,
        }
    }

    /// Whether a description is open on this inode for writing.
    fn writes_inode(&self, number: u16, inode: u16) -> bool
        ensures { result ≡ model.writes_inode inode (at (files_of self.now).descriptions number) }
    {
        match self.description(number) {
            Some(description) => description.inode == inode && description.writable,
            None => false,
        }
    }

    /// Whether an inode lives on: the console and the root always, every other one while it has an entry or is open.
    fn is_kept(&self, inode: u16) -> bool
        ensures { result ≡ model.is_kept (files_of self.now) inode }
    {
        inode < 2 || self.is_linked(inode) || self.is_open(inode)
    }

    /// Takes an inode away, unless it lives on.
    pub fn drop_inode(&mut self, inode: u16)
        requires { inode < 1024 }
        ensures { files_of self.new ≡ model.with_inode_dropped (files_of self.old) inode }
    {
        if !self.is_kept(inode) {
            self.remove_inode(inode);
        }
    }

    /// Takes an inode away.
    fn remove_inode(&mut self, inode: u16)
        requires { inode < 1024 }
        ensures { files_of self.new ≡ record (files_of self.old) { inodes = with_at (files_of self.old).inodes inode None } }
    {
        let _before = self.take_inode(inode);
    }

    /// Frees a description, and takes its inode away unless that lives on.
    pub fn release_description(&mut self, number: u16)
        ensures { files_of self.new ≡ model.with_description_freed (files_of self.old) number (at (files_of self.old).descriptions number) }
    {
        match self.description(number) {
            Some(description) => {
                self.remove_description(number);
                self.drop_inode(description.inode);
            }
            None => {}
        }
    }
}
