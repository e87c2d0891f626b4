//! What holds of invocations over any list of them.

ghost use Rattle.invoke.specs.Laws.{ResumeLaw};
ghost use Rattle.invoke.specs.Others.{OthersAreLeft};

/// Over any list of fewer than 2^64 invocations a resume key makes a domain run at most once, and every later use of it is
/// refused as void.
pub fn resume_law()
    ensures { ResumeLaw }
{}

/// Where no two domains have one slot, an invocation leaves all domains and services as they were, with their places in the
/// room, but the one that calls or answers and the one that is reached.
pub fn others_are_left()
    ensures { OthersAreLeft }
{}
