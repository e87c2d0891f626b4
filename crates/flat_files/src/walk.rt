//! Walks of paths.

ghost use Rattle.std.specs.Prelude.{◌≡◌, ◌+◌, ◌<◌, ◌∷◌, [], IfSome, MatchOption, drop, length, take, true};
ghost use Rattle.std.specs.List.{slice_split};
ghost use Rattle.unix_model.specs.Paths.{inode_at, is_no_directory, is_slash, is_slashed, named, start_spot, walked, walked_from, walked_in};
ghost use Rattle.flat_files.specs.FilesView.{files_of};
ghost use Rattle.flat_files.specs.SpotView.{after_part, spot_of, walk_of};

use crate::files::Files;
use crate::spot::Spot;
use unix_model::Errno;

impl Files {
    /// The inode of a name in a directory.
    #[tactic(auto, unfolding(unix_model::specs::Paths::inode_at))]
    fn inode_at(&self, directory: u16, name: &[u8]) -> Option<u16>
        requires { directory < 1024 }
        ensures inode { result ≡ inode_at (files_of self.now) directory name.now }
        ensures below { IfSome result (λ inode. inode < 1024) }
    {
        if name == b".".as_slice() {
            return Some(directory);
        }
        if name == b"..".as_slice() {
            return Some(self.parent_of(directory));
        }
        match self.inode(directory) {
            Some(inode) => inode.inode_named(name),
            None => None,
        }
    }

    /// One name of a path.
    fn named<'a>(&self, spot: Spot<'a>, name: &'a [u8]) -> Result<Spot<'a>, Errno>
        ensures { walk_of result ≡ named (files_of self.now) (spot_of spot.entry) name.now }
    {
        let directory = match spot.inode {
            Some(directory) => directory,
            None => return Err(Errno::Enoent),
        };
        if !self.is_directory(directory) {
            return Err(Errno::Enotdir);
        }
        if name.len() > 27 {
            return Err(Errno::Enametoolong);
        }
        Ok(Spot {
            directory,
            name,
            inode: self.inode_at(directory, name),
        })
    }

    /// One part of a path between slashes, after the walk of those before it.
    fn stepped<'a>(&self, found: Result<Spot<'a>, Errno>, part: &'a [u8]) -> Result<Spot<'a>, Errno>
        ensures { walk_of result ≡ after_part (files_of self.now) (walk_of found.entry) part.now }
    {
        match found {
            Ok(spot) => {
                if part.is_empty() {
                    Ok(spot)
                } else {
                    self.named(spot, part)
                }
            }
            Err(errno) => Err(errno),
        }
    }

    /// The parts of a path, one after the other.
    fn walk_parts<'a>(&self, start: u16, path: &'a [u8]) -> Result<Spot<'a>, Errno>
        requires { start < 1024 }
        ensures { walk_of result ≡ walked_from (files_of self.now) (start_spot start) (slice_split is_slash path.now) }
    {
        let mut found = Ok(Spot {
            directory: start,
            name: &[],
            inode: Some(start),
        });
        let mut rest = path;
        loop {
            match next_slash(rest) {
                Some(end) => {
                    found = self.stepped(found, &rest[..end]);
                    rest = after_slash(rest, end);
                }
                None => return self.stepped(found, rest),
            }
        }
    }

    /// Whether what is there is something else than a directory.
    fn is_no_directory(&self, inode: Option<u16>) -> bool
        ensures { result ≡ is_no_directory (files_of self.now) inode }
    {
        match inode {
            Some(inode) => !self.is_directory(inode),
            None => false,
        }
    }

    /// The walk of a path from a directory. It is refused with ENOENT where a name before the last is missing, with ENOTDIR
    /// where it or what has a slash behind it is no directory, and with ENAMETOOLONG where a name has more than 27 bytes
    /// (POSIX.1, pathname resolution).
    #[tactic(auto, unfolding(unix_model::specs::Paths::walked_in))]
    pub fn walk_from<'a>(&self, start: u16, path: &'a [u8]) -> Result<Spot<'a>, Errno>
        requires { start < 1024 }
        ensures { walk_of result ≡ walked_in (files_of self.now) start path.now }
    {
        let spot = match self.walk_parts(start, path) {
            Ok(spot) => spot,
            Err(errno) => return Err(errno),
        };
        if is_slashed(path) && self.is_no_directory(spot.inode) {
            return Err(Errno::Enotdir);
        }
        Ok(spot)
    }

    /// The walk of a path, from the root. It is refused with ENOENT where the path doesn't begin with a slash, and else as
    /// the walk from a directory is.
    #[tactic(auto, unfolding(unix_model::specs::Paths::walked))]
    pub fn walk<'a>(&self, path: &'a [u8]) -> Result<Spot<'a>, Errno>
        ensures { walk_of result ≡ walked (files_of self.now) path.now }
    {
        if path.is_empty() || path[0] != b'/' {
            return Err(Errno::Enoent);
        }
        self.walk_from(1, path)
    }
}

/// Whether a path ends in a slash.
pub fn is_slashed(path: &[u8]) -> bool
    ensures { result ≡ is_slashed path.now }
{
    !path.is_empty() && path[path.len() - 1] == b'/'
}

/// The place of the first slash.
#[tactic(auto, using(unix_model::proofs::PathLaws::slashes))]
fn next_slash(bytes: &[u8]) -> Option<usize>
    ensures { MatchOption result (slice_split is_slash bytes.now ≡ bytes.now ∷ []) (λ end. (end < length bytes.now) × (slice_split is_slash bytes.now ≡ take end bytes.now ∷ slice_split is_slash (drop (end + 1) bytes.now))) }
{
    for (i, byte) in bytes.iter().enumerate() {
        if *byte == b'/' {
            return Some(i);
        }
    }
    None
}

/// The bytes after the place of a slash.
fn after_slash(bytes: &[u8], slash: usize) -> &[u8]
    requires { slash < length bytes.now }
    ensures { result.now ≡ drop (slash + 1) bytes.now }
{
    &bytes[slash + 1..]
}
