//! Names that come and go.

ghost use Rattle.unix_rules.specs.NameLaws.{LinkThenUnlink};

/// After a link and an unlink of its new path each name of each directory has the inode that it had.
pub fn link_then_unlink()
    ensures { LinkThenUnlink }
{}
