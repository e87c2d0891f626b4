//! What is counted once is reached once.

ghost use Rattle.forest.specs.Laws.{CopyMakesOwn, MakesWayOwn, ChangesOnePage, PageMayStand, OwnIsAlone, OwnPageIsAlone};

/// A node that is copied, or put where none stood, at the end of an own way makes the way own for one digit more.
pub fn copy_makes_own()
    ensures { CopyMakesOwn }
{}

/// Down a way of at most four digits, with what is shared copied and what is missing put in: the way is the own way
/// of the space in all its nodes, all spaces keep their maps, at most as many nodes are taken as the way has digits,
/// and nothing changes where the way was its own before.
pub fn makes_way_own()
    ensures { MakesWayOwn }
{}

/// A page of a space is changed: the way to it is made own, and a key is written at its end.
pub fn changes_one_page()
    ensures { ChangesOnePage }
{}

/// At the end of an own way to a page the key of a page may stand, or none.
pub fn page_may_stand()
    ensures { PageMayStand }
{}

/// What a space reaches on a way of objects that are counted once is reached by no other space, and by this one on no
/// other way.
pub fn own_is_alone()
    ensures { OwnIsAlone }
{}

/// A page that a space maps on a way of objects that are counted once is mapped by no other space, and by this space
/// at no other page number.
pub fn own_page_is_alone()
    ensures { OwnPageIsAlone }
{}
