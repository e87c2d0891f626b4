//! Laws of the counts along with descriptions, names and inodes.

ghost use Rattle.kernel_counts.specs.Counted.{CountsWithBytes, CountsWithDescription, CountsWithInode, CountsWithNewDescription, CountsWithNewInode, CountsWithoutDescription, CountsWithoutInode, NameAdded, NameChanged, NamesKept};

/// The row of a description is written that keeps its inode.
pub fn counts_with_description()
    ensures { CountsWithDescription }
{}

/// A description is made.
pub fn counts_with_new_description()
    ensures { CountsWithNewDescription }
{}

/// A description is freed.
pub fn counts_without_description()
    ensures { CountsWithoutDescription }
{}

/// A name is added to a directory.
pub fn name_added()
    ensures { NameAdded }
{}

/// A name is taken away, or is given to another inode.
pub fn name_changed()
    ensures { NameChanged }
{}

/// An inode that keeps its kind, its root and its length keeps its names.
pub fn names_kept()
    ensures { NamesKept }
{}

/// The bytes of a file, a directory or a pipe are written.
pub fn counts_with_bytes()
    ensures { CountsWithBytes }
{}

/// The row of an inode is written.
pub fn counts_with_inode()
    ensures { CountsWithInode }
{}

/// An inode is made.
pub fn counts_with_new_inode()
    ensures { CountsWithNewInode }
{}

/// An inode is freed that has no names.
pub fn counts_without_inode()
    ensures { CountsWithoutInode }
{}
