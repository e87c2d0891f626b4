//! What a walk comes to.

ghost use Rattle.std.specs.Prelude.{◌<◌, ◌≤◌, length};
ghost use Rattle.std.specs.Option.{ForSome};

/// The directory of a path's last name, that name, and the inode that stands there. Before the first name it is where the
/// walk begins, and the name is empty.
#[derive(Clone, Copy)]
pub struct Spot<'a> {
    pub directory: u16,
    pub name: &'a [u8],
    pub inode: Option<u16>,
    ghost directory_below: { directory < 1024 },
    ghost short: { length name.now ≤ 27 },
    ghost inode_below: { ForSome inode (λ inode. inode < 1024) },
}
