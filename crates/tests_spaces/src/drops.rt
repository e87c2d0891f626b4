//! Spaces are dropped: what they alone have is given back, and nothing else.

ghost use Rattle.std.specs.Prelude.{◌≡◌, ◌≢◌, ℕ, ◌<◌, ◌+◌};
ghost use Rattle.kn_base.specs.Memory.{Memory};
ghost use Rattle.kernel_tables.specs.Kernel.{Kernel, kernel_of};
ghost use Rattle.tests_spaces.specs.Ready.{IsReady, IsTestSpace};

use crate::guarded::{drop_one, put};
use crate::rows::{fill_sixteen, four_bytes, new_one, shared_one, small_bank, taken_in};
use kn_base::Store;
use seg_tree::Space;
use space_bank::Taken;
use std::process::Abort;
use std::test::Fail;

// A space is dropped, and another one has what it had: so much is taken as by that one alone. Then that one is dropped.
fn drops_in_turn<T: Store>(
    rt: &impl Abort,
    store: &mut T,
    gone: Space,
    left: Space,
    byte: u8,
    one: Taken,
    nothing: Taken,
)
    requires ready { IsReady (kernel_of (T.memory store.old)) }
    requires gone { IsTestSpace (kernel_of (T.memory store.old)) gone.0.0 }
    requires left { IsTestSpace (kernel_of (T.memory store.old)) left.0.0 }
    requires apart { left.0.0 ≢ gone.0.0 }
{
    drop_one(store, gone);
    assert!(rt; taken_in(store) == one);
    assert!(rt; four_bytes(store, left, 4096 * 33) == Ok([33, 0, 0, 0]));
    assert!(rt; four_bytes(store, left, 4096 * 40) == Ok([byte, 0, 0, 0]));
    drop_one(store, left);
    assert!(rt; taken_in(store) == nothing);
}

// A space with sixteen pages is shared, a byte is put into the copy, and then one of the two is dropped, and the other one.
fn drops_both<T: Store>(rt: &impl Abort, store: &mut T, copy_first: bool)
    requires ready { IsReady (kernel_of (T.memory store.old)) }
{
    let nothing = taken_in(store);
    let space = new_one(rt, store);
    fill_sixteen(rt, store, space);
    let one = taken_in(store);
    let copy = shared_one(rt, store, space);
    assert!(rt; put(store, copy, 4096 * 40, &[7]));
    assert!(rt; taken_in(store).pages == 17);
    if copy_first {
        drops_in_turn(rt, store, copy, space, 40, one, nothing);
    } else {
        drops_in_turn(rt, store, space, copy, 7, one, nothing);
    }
}

#[test]
fn the_copy_is_dropped_and_all_is_as_before(rt: HostRuntime) -> Result<(), Fail> {
    let mut store = small_bank(rt.alloc())?;
    drops_both(&rt, &mut store, true);
    Ok(())
}

#[test]
fn the_first_space_is_dropped_and_its_copy_stays(rt: HostRuntime) -> Result<(), Fail> {
    let mut store = small_bank(rt.alloc())?;
    drops_both(&rt, &mut store, false);
    Ok(())
}
