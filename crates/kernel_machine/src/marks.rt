//! Laws of who is parked, and of what holds where somebody is parked or woken.

ghost use Rattle.kernel_machine.specs.Marks.{GoodWithPark, GoodWithWake, GoodWithWakeOfSlot, MarksUnseen, ParkedWithWake, SlotsAreNamed, StandingWithMarks};

/// Where slots are good, each domain is in its slot, and a slot names nothing else.
pub fn slots_are_named()
    ensures { SlotsAreNamed }
{}

/// Marks are no part of the flat state.
pub fn marks_unseen()
    ensures { MarksUnseen }
{}

/// What stands within a turn doesn't depend on marks.
pub fn standing_with_marks()
    ensures { StandingWithMarks }
{}

/// No wake-up is lost: once all are woken that are parked on an object, whoever is parked has to wait.
pub fn parked_with_wake()
    ensures { ParkedWithWake }
{}

/// All that holds between turns holds once all are woken that are parked on an object which has changed.
pub fn good_with_wake()
    ensures { GoodWithWake }
{}

/// The process of one slot is woken.
pub fn good_with_wake_of_slot()
    ensures { GoodWithWakeOfSlot }
{}

/// A process is parked whose call has to wait.
pub fn good_with_park()
    ensures { GoodWithPark }
{}
