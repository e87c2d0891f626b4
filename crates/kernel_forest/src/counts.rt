//! How the counts of the bank and those of the forest go together.

ghost use Rattle.kernel_forest.specs.Laws.{BankIsExact, EmptyIsGood, UntakenIsGood, RootIsSingle, SpaceHandedOut};

/// Where the bank's counts are exact, so are the forest's.
pub fn bank_is_exact()
    ensures { BankIsExact }
{}

/// Where nothing belongs to a tree, all that holds of trees holds.
pub fn empty_is_good()
    ensures { EmptyIsGood }
{}

/// Where nothing is taken, as in a new bank, all that holds of trees holds.
pub fn untaken_is_good()
    ensures { UntakenIsGood }
{}

/// A root is counted once.
pub fn root_is_single()
    ensures { RootIsSingle }
{}

/// A space's key outside is one key more for the bank and for the forest.
pub fn space_handed_out()
    ensures { SpaceHandedOut }
{}
