//! What a crash leaves at each call of the disk, and after each call that fails.

use crate::machines::{
    COMMIT, FORMAT, START, change_first, change_second, formatted, generations, migrate_one, put,
    save, small_store,
};
use crate::untold::{Fails, Untold};
use checkpoint::{DiskFault, Position};
use kn_disk::Fill;
use obj_store::RamStore;
use std::process::Abort;
use std::test::Fail;

const FILLS: [Fill; 5] = [
    Fill::Old,
    Fill::New,
    Fill::Byte(0),
    Fill::Byte(1),
    Fill::Byte(255),
];

// A call of a disk. Each has its own name in the failures of the tests.
#[derive(Clone, Copy, Debug, PartialEq, Eq)]
enum Call {
    Format,
    First,
    Migration,
    Second,
    All,
}

impl Call {
    // How many generations an image has at least where this call was ended by a fault.
    fn least(self) -> u64 {
        match self {
            Call::Format => 0,
            Call::First => 1,
            Call::Migration | Call::Second => 2,
            Call::All => 3,
        }
    }

    // And at most.
    fn most(self) -> u64 {
        match self {
            Call::Format => 1,
            Call::First | Call::Migration => 2,
            Call::Second | Call::All => 3,
        }
    }
}

// Copies all entries home.
fn migrate(rt: &impl Abort, disk: &mut Untold, at: &mut Position) -> Result<(), DiskFault> {
    for _ in 0..8 {
        if at.synced {
            return Ok(());
        }
        migrate_one(rt, disk, at)?;
    }
    Ok(())
}

// Commits generation 1, migrates, and commits generation 2. The result is the call that failed.
fn advance(rt: &impl Abort, disk: &mut Untold, store: &mut RamStore) -> Call {
    let mut at = START;
    change_first(store);
    if save(rt, disk, store, &mut at).is_err() {
        return Call::First;
    }
    if migrate(rt, disk, &mut at).is_err() {
        return Call::Migration;
    }
    change_second(store);
    if save(rt, disk, store, &mut at).is_err() {
        return Call::Second;
    }
    Call::All
}

// Formats, and then makes two generations. The result is the call that failed.
fn whole(rt: &impl Abort, disk: &mut Untold, store: &mut RamStore) -> Call {
    if put(rt, disk, store).is_err() {
        return Call::Format;
    }
    advance(rt, disk, store)
}

// Each image that a crash may leave has as many generations as it should.
fn images_hold(rt: &(impl Abort + AllocGlobal), disk: &Untold, call: Call) -> Result<(), Fail> {
    for fill in FILLS {
        let image = disk.image(rt.alloc(), fill)?;
        let found = generations(rt.alloc(), &image)?;
        assert!(rt;
            call.least() <= found && found <= call.most(),
            "{call:?} with {fill:?}: {found}"
        );
    }
    Ok(())
}

// Makes all calls with some failing from this number on. Where it was this call that failed, all
// images are looked at. The result is the call that failed.
fn fails_at(
    rt: &(impl Abort + AllocGlobal),
    number: u32,
    fails: Fails,
    call: Call,
) -> Result<Call, Fail> {
    let mut store = small_store(rt.alloc())?;
    // No machine is present: its first byte isn't 1.
    let before = [255; 8192];
    let mut disk = Untold::new(rt.alloc(), &before, FORMAT + 2 * COMMIT, fails)?;
    let failed = whole(rt, &mut disk, &mut store);
    if failed == call {
        images_hold(rt, &disk, call)?;
    }
    let made = disk.calls > number;
    assert!(rt; made == (failed != Call::All), "a failing call is told");
    Ok(failed)
}

// Fails each call of the disk in turn, it alone or all from it on, until all calls were made.
fn each_fails(rt: &(impl Abort + AllocGlobal), once: bool, call: Call) -> Result<(), Fail> {
    let mut seen = false;
    for number in 0..1000u32 {
        let fails = if once {
            Fails::Once(number)
        } else {
            Fails::From(number)
        };
        let failed = fails_at(rt, number, fails, call)?;
        seen = seen || failed == call;
        if failed == Call::All {
            assert!(rt; seen, "{call:?} makes calls");
            return Ok(());
        }
    }
    Err("a thousand calls are not enough".into())
}

#[test]
fn a_stopped_format_leaves_no_machine_or_all_of_it(rt: HostRuntime) -> Result<(), Fail> {
    each_fails(&rt, false, Call::Format)
}

#[test]
fn a_stopped_commit_leaves_the_last_machine_or_the_next(rt: HostRuntime) -> Result<(), Fail> {
    each_fails(&rt, false, Call::First)?;
    each_fails(&rt, false, Call::Second)
}

#[test]
fn a_stopped_migration_leaves_the_machine(rt: HostRuntime) -> Result<(), Fail> {
    each_fails(&rt, false, Call::Migration)?;
    each_fails(&rt, false, Call::All)
}

#[test]
fn a_format_of_which_one_call_fails_leaves_no_machine_or_all_of_it(
    rt: HostRuntime,
) -> Result<(), Fail> {
    each_fails(&rt, true, Call::Format)
}

#[test]
fn an_advance_of_which_one_call_fails_leaves_one_of_two_machines(
    rt: HostRuntime,
) -> Result<(), Fail> {
    each_fails(&rt, true, Call::First)?;
    each_fails(&rt, true, Call::Migration)?;
    each_fails(&rt, true, Call::Second)
}

// Commits generation 1 to a disk that was just formatted. The result is how many calls it made, and how
// many generations an image has.
fn torn_gate(
    rt: &(impl Abort + AllocGlobal),
    first: &[u8],
    fails: Fails,
    byte: u8,
) -> Result<(u32, u64), Fail> {
    let mut store = small_store(rt.alloc())?;
    store.clean();
    change_first(&mut store);
    let mut disk = Untold::new(rt.alloc(), first, COMMIT, fails)?;
    let mut at = START;
    let _answer = save(rt, &mut disk, &mut store, &mut at);
    let image = disk.image(rt.alloc(), Fill::Byte(byte))?;
    Ok((disk.calls, generations(rt.alloc(), &image)?))
}

#[test]
fn a_torn_gate_opens_the_next_generation_at_one_alone(rt: HostRuntime) -> Result<(), Fail> {
    let first = formatted(&rt, &mut small_store(rt.alloc())?)?;
    let (calls, found) = torn_gate(&rt, &first, Fails::Never, 0)?;
    assert!(rt; found == 2);
    // The last call is the sync behind the write of the gate.
    let last = Fails::Once(calls.saturating_sub(1));
    for byte in [0, 1, 2, 128, 255] {
        let (_, found) = torn_gate(&rt, &first, last, byte)?;
        assert!(rt; found == if byte == 1 { 2 } else { 1 }, "gate {byte}");
    }
    Ok(())
}
