//! How many descriptions are open on an inode.

ghost use Rattle.std.specs.Prelude.{◌≡◌, ℕ, ◌<◌};
ghost use Rattle.kn_base.specs.Memory.{Memory};
ghost use Rattle.kernel_tables.specs.Kernel.{Kernel, kernel_of, Sized, IsSized, description_count};
ghost use Rattle.file_tables.specs.Rows.{DescriptionsGood};
ghost use Rattle.kernel_machine.specs.Counts.{opens};
ghost use Rattle.kernel_machine.specs.Machine.{machine_of};
ghost use Rattle.kernel_machine.specs.View.{descriptions_in};
ghost use Rattle.unix_model.specs.Files.{description_names};
ghost use Rattle.unix_model.specs.Tables.{at};

use file_tables::description_of;
use kn_base::Store;

// Whether the description of a number is open on an inode.
#[tactic(auto, unfolding(kernel_machine::specs::Machine::machine_of, kernel_machine::specs::Machine::descriptions_of, kernel_machine::specs::View::descriptions_in, unix_model::specs::Tables::at))]
fn opens_inode<T: Store>(store: &T, number: u16, inode: u32) -> bool
    requires sized { Sized (kernel_of (T.memory store.now)) }
    requires good { DescriptionsGood (kernel_of (T.memory store.now)).descriptions }
    requires number { number < description_count }
    ensures { result ≡ description_names inode (at (descriptions_in (machine_of (kernel_of (T.memory store.now)))) number) }
{
    match description_of(store, number) {
        Some(description) => description.inode == inode,
        None => false,
    }
}

/// How many descriptions are open on an inode.
#[tactic(auto, using(unix_model::proofs::TableLaws::steps), unfolding(kernel_machine::specs::Counts::opens))]
pub fn count_opens<T: Store>(store: &T, inode: u32) -> u32
    requires sized { Sized (kernel_of (T.memory store.now)) }
    requires good { DescriptionsGood (kernel_of (T.memory store.now)).descriptions }
    ensures { result ≡ opens (descriptions_in (machine_of (kernel_of (T.memory store.now)))) inode }
{
    let mut count = 0;
    for number in 0..2048 {
        if opens_inode(store, number, inode) {
            count += 1;
        }
    }
    count
}
