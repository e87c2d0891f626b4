//! Laws of what holds where domains and services call each other.

ghost use Rattle.kernel_machine.specs.Invocations.{FixedAreGoodBut, FixedAreSettled, FixedButWithBirth, FixedButWithGone, FixedButWithRows, FixedWithInvocation, InvocationUnseen, SlotsAreGoodBut, SlotsAreSettled, SlotsButWithDomain, SlotsButWithWake, SlotsWithInvocation, StandingWithInvocation};

/// What stands within a turn stands on where somebody calls, is reached or answers.
pub fn standing_with_invocation()
    ensures { StandingWithInvocation }
{}

/// Invocations are no part of the flat state.
pub fn invocation_unseen()
    ensures { InvocationUnseen }
{}

/// Slots that are good are so but for none.
pub fn slots_are_good_but()
    ensures { SlotsAreGoodBut }
{}

/// An invocation leaves all slots but those of who calls or answers, and of who is reached.
pub fn slots_with_invocation()
    ensures { SlotsWithInvocation }
{}

/// A domain is set in a slot that need not be good yet.
pub fn slots_but_with_domain()
    ensures { SlotsButWithDomain }
{}

/// Slots that need not all be good yet are as good where all are woken that are parked on an object.
pub fn slots_but_with_wake()
    ensures { SlotsButWithWake }
{}

/// Slots are good again once those are that an invocation touched.
pub fn slots_are_settled()
    ensures { SlotsAreSettled }
{}

/// Fixed nodes that are good are so but for none.
pub fn fixed_are_good_but()
    ensures { FixedAreGoodBut }
{}

/// An invocation leaves all services available but those that are called or answer, and all else that fixed nodes hold.
pub fn fixed_with_invocation()
    ensures { FixedWithInvocation }
{}

/// Fixed nodes of which some services need not be available yet are as good where no key of theirs is written.
pub fn fixed_but_with_rows()
    ensures { FixedButWithRows }
{}

/// Likewise where a domain is made.
pub fn fixed_but_with_birth()
    ensures { FixedButWithBirth }
{}

/// Likewise where a domain is dropped.
pub fn fixed_but_with_gone()
    ensures { FixedButWithGone }
{}

/// Fixed nodes are good again once those services are available that an invocation touched.
pub fn fixed_are_settled()
    ensures { FixedAreSettled }
{}
