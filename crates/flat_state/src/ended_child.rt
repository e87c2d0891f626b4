//! Children that have ended.

ghost use Rattle.std.specs.Prelude.{◌≡◌, option_map};
ghost use Rattle.unix_model.specs.ProcessCalls.{lesser_pid};
ghost use Rattle.flat_state.specs.EndedChildView.{ended_child_of};

/// A child that has ended.
#[derive(Clone, Copy, Debug, PartialEq, Eq)]
pub struct EndedChild {
    pub slot: u8,
    pub pid: u32,
    pub word: u32,
}

/// Of two the one of the lower pid.
pub(crate) fn lesser_pid(
    first: Option<EndedChild>,
    second: Option<EndedChild>,
) -> Option<EndedChild>
    ensures { option_map ended_child_of result ≡ lesser_pid (option_map ended_child_of first) (option_map ended_child_of second) }
{
    match (first, second) {
        (None, second) => second,
        (Some(first), None) => Some(first),
        (Some(first), Some(second)) => {
            if second.pid < first.pid {
                Some(second)
            } else {
                Some(first)
            }
        }
    }
}
