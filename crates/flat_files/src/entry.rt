//! The entries of directories.

ghost use Rattle.std.specs.Prelude.{◌<◌, ◌≤◌, length};

/// A name in a directory, of at most 27 bytes, and the number of its inode.
#[derive(Drop)]
pub struct Entry {
    pub name: Vec<u8>,
    pub inode: u16,
    ghost short: { length name.items ≤ 27 },
    ghost below_limit: { inode < 1024 },
}
