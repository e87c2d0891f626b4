//! Rules of a state that boot gives and every turn keeps.

ghost use Rattle.unix_laws.specs.RuleLaws.{BootGivesRules, DescriptorsKept, SlotsHaveDescriptors, OpenKept, SentKept, SizesKept};

/// Every turn keeps the pages and the quantum, and leaves the position within its round.
pub fn sizes_kept()
    ensures { SizesKept }
{}

/// The rules of slots say this of descriptors.
pub fn slots_have_descriptors()
    ensures { SlotsHaveDescriptors }
{}

/// Every turn keeps the number of each process's descriptors, and a process that has ended has none open.
pub fn descriptors_kept()
    ensures { DescriptorsKept }
{}

/// After every turn each call on its way is the one that the keeper gives then.
pub fn sent_kept()
    ensures { SentKept }
{}

/// After every turn a description is there exactly where a descriptor names it.
pub fn open_kept()
    ensures { OpenKept }
{}

/// Boot gives the sizes that were asked for, with no call on its way and descriptions where descriptors name them.
pub fn boot_gives_rules()
    ensures { BootGivesRules }
{}
