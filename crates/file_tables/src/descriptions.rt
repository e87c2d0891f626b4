//! Open descriptions by their numbers.

ghost use Rattle.std.specs.Prelude.{◌≡◌, ℕ, ◌<◌, IfOk, OnErr, [], ◌∷◌, slice_set};
ghost use Rattle.kn_base.specs.Memory.{Memory};
ghost use Rattle.kernel_tables.specs.declared.row.Row.TheVariants.{Free, Used};
ghost use Rattle.kernel_tables.specs.Kernel.{Kernel, kernel_of, Sized, IsSized, description_count, description_at};
ghost use Rattle.kernel_tables.specs.Blocks.{description_block, ChangesBlocks};
ghost use Rattle.file_tables.specs.Rows.{IsDescription, DescriptionsGood, row_of};
ghost use Rattle.file_tables.specs.Numbers.{TakesDescription, NoDescriptionFree};

use super::free_numbers::{Full, least_free_description};
use kernel_tables::{Description, Row, description_entry, set_description_entry};
use kn_base::Store;

/// The description of a number below 2,048, or None where the number is free.
pub fn description_of<T: Store>(store: &T, number: u16) -> Option<Description>
    requires sized { Sized (kernel_of (T.memory store.now)) }
    requires good { DescriptionsGood (kernel_of (T.memory store.now)).descriptions }
    requires number { number < description_count }
    ensures { description_at (kernel_of (T.memory store.now)) number ≡ row_of result }
{
    match description_entry(store, number) {
        Row::Used(description) => Some(description),
        Row::Free | Row::Unspelled => None,
    }
}

/// Writes the description of a number below 2,048. It is open for reading or writing.
pub fn set_description<T: Store>(store: &mut T, number: u16, description: Description)
    requires sized { Sized (kernel_of (T.memory store.old)) }
    requires good { DescriptionsGood (kernel_of (T.memory store.old)).descriptions }
    requires number { number < description_count }
    requires right { IsDescription description }
    ensures written { let old = kernel_of (T.memory store.old) in kernel_of (T.memory store.new) ≡ record old { descriptions = slice_set old.descriptions number (Used description) } }
    ensures good { DescriptionsGood (kernel_of (T.memory store.new)).descriptions }
    ensures blocks { ChangesBlocks (T.blocks store.old) (T.blocks store.new) (description_block number ∷ []) }
    ensures keeps { T.keeps store.old store.new }
{
    set_description_entry(store, number, Row::Used(description));
}

/// Puts a description, which is open for reading or writing, at the least free number. It is Full exactly where no number is
/// free.
pub fn new_description<T: Store>(store: &mut T, description: Description) -> Result<u16, Full>
    requires sized { Sized (kernel_of (T.memory store.old)) }
    requires good { DescriptionsGood (kernel_of (T.memory store.old)).descriptions }
    requires right { IsDescription description }
    ensures taken { IfOk result (TakesDescription (kernel_of (T.memory store.old)) (kernel_of (T.memory store.new)) description) }
    ensures full { OnErr result (NoDescriptionFree (kernel_of (T.memory store.old)) (kernel_of (T.memory store.new))) }
    ensures good { DescriptionsGood (kernel_of (T.memory store.new)).descriptions }
    ensures blocks { IfOk result (λ number. ChangesBlocks (T.blocks store.old) (T.blocks store.new) (description_block number ∷ [])) }
    ensures no_block { OnErr result (ChangesBlocks (T.blocks store.old) (T.blocks store.new) []) }
    ensures keeps { T.keeps store.old store.new }
{
    match least_free_description(store) {
        Some(number) => {
            set_description_entry(store, number, Row::Used(description));
            Ok(number)
        }
        None => Err(Full),
    }
}

/// Frees the number of a description.
pub fn free_description<T: Store>(store: &mut T, number: u16)
    requires sized { Sized (kernel_of (T.memory store.old)) }
    requires good { DescriptionsGood (kernel_of (T.memory store.old)).descriptions }
    requires number { number < description_count }
    ensures written { let old = kernel_of (T.memory store.old) in kernel_of (T.memory store.new) ≡ record old { descriptions = slice_set old.descriptions number Free } }
    ensures good { DescriptionsGood (kernel_of (T.memory store.new)).descriptions }
    ensures blocks { ChangesBlocks (T.blocks store.old) (T.blocks store.new) (description_block number ∷ []) }
    ensures keeps { T.keeps store.old store.new }
{
    set_description_entry(store, number, Row::Free);
}
