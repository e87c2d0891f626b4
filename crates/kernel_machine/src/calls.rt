//! Laws of what calls on the kernel's tables are for the flat state.

ghost use Rattle.kernel_machine.specs.Laws.{DescriptionSet, DomainSet, InodeSet, LifeSet, RootsDiffer};

/// Where slots are good, no two have one root.
pub fn roots_differ()
    ensures { RootsDiffer }
{}

/// A call that writes numbers in a domain: its process is another one.
pub fn domain_set()
    ensures { DomainSet }
{}

/// A call that writes numbers in a domain and leaves it: the state is the same.
pub fn life_set()
    ensures { LifeSet }
{}

/// A call that writes a row of the table of inodes.
pub fn inode_set()
    ensures { InodeSet }
{}

/// A call that writes a row of the table of open descriptions.
pub fn description_set()
    ensures { DescriptionSet }
{}
