//! Files by their paths.

ghost use Rattle.std.specs.Prelude.{◌≡◌, ◌≤◌, IfSome, length, option_map};
ghost use Rattle.unix_model.specs.Paths.{file_at};
ghost use Rattle.flat_files.specs.FilesView.{files_of};

use flat_files::Files;

/// The bytes of the file that a path names, at most 4,194,304. None exactly where the path, walked from the root, names
/// none.
#[tactic(auto, unfolding(unix_model::specs::Paths::file_at))]
pub fn file_at<'a>(files: &'a Files, path: &[u8]) -> Option<&'a [u8]>
    ensures file { option_map (λ bytes. bytes.now) result ≡ file_at (files_of files.now) path.now }
    ensures few { IfSome result (λ bytes. length bytes.now ≤ 4194304) }
{
    let spot = match files.walk(path) {
        Ok(spot) => spot,
        Err(_) => return None,
    };
    let number = match spot.inode {
        Some(number) => number,
        None => return None,
    };
    match files.inode(number) {
        Some(inode) => inode.bytes(),
        None => None,
    }
}
