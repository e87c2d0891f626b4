//! Laws of the counts along with processes: their domains, descriptors and buffers, and the pages of pipes.

ghost use Rattle.kernel_counts.specs.Counted.{CountsWithBirth, CountsWithBuffer, CountsWithDescriptor, CountsWithEnd, CountsWithGone, CountsWithInvocation, CountsWithNumbers, CountsWithPage, CountsWithProcess, CountsWithSpaceSet, CountsWithState, CountsWithoutBuffer, CountsWithoutPage};

/// Processes and files of the flat state are the same.
pub fn counts_with_state()
    ensures { CountsWithState }
{}

/// A process is another one with the same descriptors.
pub fn counts_with_process()
    ensures { CountsWithProcess }
{}

/// Somebody calls, is reached or answers.
pub fn counts_with_invocation()
    ensures { CountsWithInvocation }
{}

/// Numbers are written in a domain that keeps its descriptors.
pub fn counts_with_numbers()
    ensures { CountsWithNumbers }
{}

/// The space of a domain is set, or taken away.
pub fn counts_with_space_set()
    ensures { CountsWithSpaceSet }
{}

/// Bytes are written in the buffer of a domain, for which a page may be taken.
pub fn counts_with_buffer()
    ensures { CountsWithBuffer }
{}

/// The buffer of a domain is given back.
pub fn counts_without_buffer()
    ensures { CountsWithoutBuffer }
{}

/// A page is taken for a pipe.
pub fn counts_with_page()
    ensures { CountsWithPage }
{}

/// A loose page of a pipe is given back.
pub fn counts_without_page()
    ensures { CountsWithoutPage }
{}

/// A descriptor is set, or cleared.
pub fn counts_with_descriptor()
    ensures { CountsWithDescriptor }
{}

/// A domain is made.
pub fn counts_with_birth()
    ensures { CountsWithBirth }
{}

/// A domain becomes a zombie.
pub fn counts_with_end()
    ensures { CountsWithEnd }
{}

/// A zombie is dropped.
pub fn counts_with_gone()
    ensures { CountsWithGone }
{}
