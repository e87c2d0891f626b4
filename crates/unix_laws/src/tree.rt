//! Laws of the tree of directories: of ways to the root by parents.

ghost use Rattle.unix_laws.specs.TreeLaws.{RenameLooksFar, WaysBesideStay, WaysStay};

/// The test of rename looks far enough: what isn't below a directory within 1,024 parents isn't below it at all.
pub fn rename_looks_far()
    ensures { RenameLooksFar }
{}

/// Where one directory gets another parent, a way that doesn't lead over it stays.
pub fn ways_beside_stay()
    ensures { WaysBesideStay }
{}

/// Where one directory gets a parent that has a way, each directory that had one has one.
pub fn ways_stay()
    ensures { WaysStay }
{}
