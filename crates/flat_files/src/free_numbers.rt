//! The least free numbers of inodes and descriptions.

use crate::files::Files;

impl Files {
    ghost use Rattle.std.specs.Prelude.{◌≡◌, ◌<◌, IfSome};
    ghost use Rattle.unix_model.specs.Files as model;
    ghost use Rattle.flat_files.specs.FilesView.{files_of};
    ghost use Rattle.flat_files.specs.FreeNumber.{IsFreeNumber};

    /// The least free inode number, which isn't the console's or the root's.
    #[tactic(auto, using(unix_model::proofs::TableLaws::steps), unfolding(unix_model::specs::Files::free_inode))]
    pub fn free_inode(&self) -> Option<u16>
        ensures least { result ≡ model.free_inode (files_of self.now).inodes }
        ensures free { IfSome result (IsFreeNumber (files_of self.now).inodes) }
    {
        let mut least = None;
        for number in 0..1024u16 {
            if least.is_none() && 2 <= number && self.inode(number).is_none() {
                least = Some(number);
            }
        }
        least
    }

    /// The least free number of a description.
    #[tactic(auto, using(unix_model::proofs::TableLaws::steps), unfolding(unix_model::specs::Files::free_description))]
    pub fn free_description(&self) -> Option<u16>
        ensures least { result ≡ model.free_description (files_of self.now).descriptions }
        ensures below { IfSome result (λ number. number < 2048) }
    {
        let mut least = None;
        for number in 0..2048u16 {
            if least.is_none() && self.description(number).is_none() {
                least = Some(number);
            }
        }
        least
    }

    /// The least free number of a description beside another.
    #[tactic(auto, using(unix_model::proofs::TableLaws::steps), unfolding(unix_model::specs::Files::next_description))]
    pub fn next_description(&self, beside: u16) -> Option<u16>
        ensures least { result ≡ model.next_description (files_of self.now).descriptions beside }
        ensures below { IfSome result (λ number. number < 2048) }
    {
        let mut least = None;
        for number in 0..2048u16 {
            if least.is_none() && !(number == beside) && self.description(number).is_none() {
                least = Some(number);
            }
        }
        least
    }
}
