//! The ends of a pipe that are open: descriptions from which it is read, and to which it is written.

ghost use Rattle.std.specs.Prelude.{◌≡◌, ℕ, ◌<◌};
ghost use Rattle.kn_base.specs.Memory.{Memory};
ghost use Rattle.kernel_tables.specs.Kernel.{Kernel, kernel_of, Sized, IsSized, description_count};
ghost use Rattle.file_tables.specs.Rows.{DescriptionsGood};
ghost use Rattle.kernel_machine.specs.Counts.{opens};
ghost use Rattle.kernel_machine.specs.Machine.{machine_of};
ghost use Rattle.kernel_machine.specs.View.{descriptions_in, files_in};
ghost use Rattle.unix_model.specs.Tables.{at};
ghost use Rattle.pipe_domain.specs.Ends.{end_of, has_end, is_for};

use file_tables::description_of;
use kernel_tables::Description;
use kn_base::Store;

/// An end of a pipe.
#[derive(Clone, Copy, Debug, PartialEq, Eq)]
pub(crate) enum End {
    /// The one that is read from.
    Reading,
    /// The one that is written to.
    Writing,
}

// Whether a description is open for what is done at an end.
fn is_for(end: End, description: Description) -> bool
    ensures { result ≡ is_for end description.readable description.writable }
{
    match end {
        End::Reading => description.readable,
        End::Writing => description.writable,
    }
}

// Whether the description of a number is this end of the pipe, or None where it isn't open on the pipe.
#[tactic(auto, unfolding(kernel_machine::specs::Machine::machine_of, kernel_machine::specs::Machine::descriptions_of, kernel_machine::specs::View::descriptions_in, unix_model::specs::Tables::at))]
fn end_at<T: Store>(store: &T, number: u16, pipe: u32, end: End) -> Option<bool>
    requires sized { Sized (kernel_of (T.memory store.now)) }
    requires good { DescriptionsGood (kernel_of (T.memory store.now)).descriptions }
    requires number { number < description_count }
    ensures { result ≡ end_of end pipe (at (descriptions_in (machine_of (kernel_of (T.memory store.now)))) number) }
{
    match description_of(store, number) {
        Some(description) => {
            if description.inode == pipe {
                Some(is_for(end, description))
            } else {
                None
            }
        }
        None => None,
    }
}

/// Whether an end of a pipe is open, on which `count` descriptions are open, as its inode says. They are looked at in the order
/// of their numbers, up to the first one that is this end, and to the last one that is open on the pipe at most.
pub(crate) fn is_open<T: Store>(store: &T, pipe: u32, count: u32, end: End) -> bool
    requires sized { Sized (kernel_of (T.memory store.now)) }
    requires good { DescriptionsGood (kernel_of (T.memory store.now)).descriptions }
    requires counted { count ≡ opens (descriptions_in (machine_of (kernel_of (T.memory store.now)))) pipe }
    ensures { result ≡ has_end end (files_in (machine_of (kernel_of (T.memory store.now)))) pipe }
{
    let mut left = count;
    for number in 0..2048 {
        if left == 0 {
            return false;
        }
        match end_at(store, number, pipe, end) {
            Some(true) => return true,
            Some(false) => left -= 1,
            None => {}
        }
    }
    false
}
