//! Laws of the roots of files: what the bank and the forest make of a row that is written.

ghost use Rattle.file_tables.specs.Laws.{FreshFilesAreGood, FreshFilesNameNothing, TreesBesideFiles, RootExchanged, RootHandedOver, RootHandedBack, RootKept, SpaceOutOfHand, SpaceInHand, RootOutOfHand, RootInHand, OtherPageTaken, OtherPageGiven};

/// The tables of files of a new machine are good.
pub fn fresh_files_are_good()
    ensures { FreshFilesAreGood }
{}

/// The inodes of a new machine name nothing.
pub fn fresh_files_name_nothing()
    ensures { FreshFilesNameNothing }
{}

/// The bank and the trees don't look at the tables of files.
pub fn trees_beside_files()
    ensures { TreesBesideFiles }
{}

/// The key of a row's root is handed over to the table, and that of the row which was there is handed back.
pub fn root_exchanged()
    ensures { RootExchanged }
{}

/// A key is handed over to a row that had no root.
pub fn root_handed_over()
    ensures { RootHandedOver }
{}

/// A key is handed back by a row that has no root now.
pub fn root_handed_back()
    ensures { RootHandedBack }
{}

/// A row that keeps its root leaves what the table names.
pub fn root_kept()
    ensures { RootKept }
{}

/// The key of a space that is counted once is handed out.
pub fn space_out_of_hand()
    ensures { SpaceOutOfHand }
{}

/// The key of a space is handed back into hand.
pub fn space_in_hand()
    ensures { SpaceInHand }
{}

/// The key of a space goes from hand to a row that had no root.
pub fn root_out_of_hand()
    ensures { RootOutOfHand }
{}

/// The key of a space goes from a row into hand.
pub fn root_in_hand()
    ensures { RootInHand }
{}

/// A page that was taken for no tree is handed over at once.
pub fn other_page_taken()
    ensures { OtherPageTaken }
{}

/// A page of no tree is given back.
pub fn other_page_given()
    ensures { OtherPageGiven }
{}
