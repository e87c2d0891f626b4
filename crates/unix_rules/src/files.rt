//! Rules of inodes, names and descriptions that every turn keeps.

ghost use Rattle.unix_rules.specs.FileRules.{WalksStand, FilesKept};

/// A walk that succeeds ends in a directory that is tied to the root, as is what it finds.
pub fn walks_stand()
    ensures { WalksStand }
{}

/// Every turn keeps the rules of inodes, of names, of the tree of directories, of which inodes are there, and of descriptions.
pub fn files_kept()
    ensures { FilesKept }
{}
