//! Laws of pipes: what all that stands says of one.

ghost use Rattle.pipe_domain.specs.Laws.{PipeIsGood, PipeIsSeen};

/// Where all stands, and an inode of a pipe says how many descriptions are open on it, calls on that pipe may be made.
pub fn pipe_is_good()
    ensures { PipeIsGood }
{}

/// What a call on a pipe takes for its contents is what the flat state has.
pub fn pipe_is_seen()
    ensures { PipeIsSeen }
{}
