//! Whatever is counted is reached, and what is mapped is counted.

ghost use Rattle.forest.specs.Laws.{EverythingIsReached, EveryPageIsMapped, AlikeIsEquallyMany, TakenIsDifferent, MappedIsSum};

/// Each node and page that belongs to a tree is reached by some space.
pub fn everything_is_reached()
    ensures { EverythingIsReached }
{}

/// Each page that belongs to a tree is mapped by some space of its owner.
pub fn every_page_is_mapped()
    ensures { EveryPageIsMapped }
{}

/// Two ways of labelling that tell the same places apart have equally many labels.
pub fn alike_is_equally_many()
    ensures { AlikeIsEquallyMany }
{}

/// The number of pages taken as memory is the number of different pages in the maps of the spaces of processes.
pub fn taken_is_different()
    ensures { TakenIsDifferent }
{}

/// The number of mapped pages of a space is the sum over its subtrees.
pub fn mapped_is_sum()
    ensures { MappedIsSum }
{}
