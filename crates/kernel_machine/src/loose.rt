//! Laws of what stands while a space, the tree of a file or the page of a pipe is loose.

ghost use Rattle.kernel_machine.specs.Loose.{NothingLoose, StandingWithDomain, StandingWithLoose, StandingWithNewInode, StandingWithPage, StandingWithPipe, StandingWithRoot, StandingWithSpace, StandingWithSpaceDropped, StandingWithSpaceSet, StandingWithoutPage};

/// Where nothing is loose, all stands.
pub fn nothing_loose()
    ensures { NothingLoose }
{}

/// A space is added, and is loose.
pub fn standing_with_space()
    ensures { StandingWithSpace }
{}

/// The loose space or tree is another one, and all others are left.
pub fn standing_with_loose()
    ensures { StandingWithLoose }
{}

/// The space of a domain is set, or taken away, and the one that it had is loose.
pub fn standing_with_space_set()
    ensures { StandingWithSpaceSet }
{}

/// A domain is made whose space was loose.
pub fn standing_with_domain()
    ensures { StandingWithDomain }
{}

/// The loose space or tree is released.
pub fn standing_with_space_dropped()
    ensures { StandingWithSpaceDropped }
{}

/// A file or directory is made, which has no root yet.
pub fn standing_with_new_inode()
    ensures { StandingWithNewInode }
{}

/// The row of an inode gets the root that was loose, or is freed, and the root that it had is loose.
pub fn standing_with_root()
    ensures { StandingWithRoot }
{}

/// A pipe is made, with the page that was loose.
pub fn standing_with_pipe()
    ensures { StandingWithPipe }
{}

/// A page is taken for a pipe, and is loose.
pub fn standing_with_page()
    ensures { StandingWithPage }
{}

/// The loose page of a pipe is given back.
pub fn standing_without_page()
    ensures { StandingWithoutPage }
{}
