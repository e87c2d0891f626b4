//! Laws of what calls change of a machine.

ghost use Rattle.kernel_machine.specs.Laws.{DescriptionWritten, FilesWritten, InodeWritten, KeyHandedOver, NumbersWritten, SpacesChanged};

/// Numbers were written in a domain.
pub fn numbers_written()
    ensures { NumbersWritten }
{}

/// A key was written in a domain.
pub fn key_handed_over()
    ensures { KeyHandedOver }
{}

/// Rows of files were written.
pub fn files_written()
    ensures { FilesWritten }
{}

/// One row of the table of inodes was written.
pub fn inode_written()
    ensures { InodeWritten }
{}

/// One row of the table of open descriptions was written.
pub fn description_written()
    ensures { DescriptionWritten }
{}

/// A call on spaces leaves domains, slots, lives and files.
pub fn spaces_changed()
    ensures { SpacesChanged }
{}
