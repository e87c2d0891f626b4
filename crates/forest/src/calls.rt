//! What calls on spaces will promise, put together from the laws.

ghost use Rattle.forest.specs.Laws.{CallChangesMap, OwnWayIsOwn, OwnHasOwnWay, CallSharesSpace, CallAddsSpace, CallDropsSpace};

/// A call that changes a page of a space changes the map of this space at this page number, and nothing else.
pub fn call_changes_map()
    ensures { CallChangesMap }
{}

/// A page found at the end of an own way is own.
pub fn own_way_is_own()
    ensures { OwnWayIsOwn }
{}

/// The way to an own page is this space's own.
pub fn own_has_own_way()
    ensures { OwnHasOwnWay }
{}

/// A call that adds a space over the children of another one: it has the same map.
pub fn call_shares_space()
    ensures { CallSharesSpace }
{}

/// A call that adds an empty space.
pub fn call_adds_space()
    ensures { CallAddsSpace }
{}

/// A call that releases a space leaves every other one its map.
pub fn call_drops_space()
    ensures { CallDropsSpace }
{}
