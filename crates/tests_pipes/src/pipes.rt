//! Pipes of a new machine, beside a plain queue.

ghost use Rattle.std.specs.Prelude.{◌≡◌, ℕ, ◌<◌, ◌≤◌, IfOk};
ghost use Rattle.kn_base.specs.Memory.{Memory};
ghost use Rattle.kernel_tables.specs.Kernel.{Kernel, kernel_of, first_page, node_count};
ghost use Rattle.obj_store.specs.Store.{ram_memory};
ghost use Rattle.space_bank.specs.Bank.{BankGood};
ghost use Rattle.file_tables.specs.Rows.{DescriptionsGood, InodesGood};
ghost use Rattle.pipe_domain.specs.Pipes.{PipeGood};

use super::piping::{empty_pipe, open_both};
use kn_base::Store;
use obj_store::{NoMemory, RamStore};
use pipe_domain::{Piped, put, take};
use space_bank::setup;
use std::alloc::Global;
use std::process::Abort;
use std::test::Fail;
use unix_model::Errno;

// A new machine of 64 pages, with 100 turns of each process to a round.
#[tactic(auto, unfolding(kernel_tables::specs::Kernel::first_page, space_bank::specs::Setup::empty_bank))]
fn machine(alloc: Global) -> Result<RamStore, Fail>
    ensures bank { IfOk result (λ store. BankGood (kernel_of (ram_memory store))) }
    ensures inodes { IfOk result (λ store. InodesGood (kernel_of (ram_memory store)).inodes) }
    ensures descriptions { IfOk result (λ store. DescriptionsGood (kernel_of (ram_memory store)).descriptions) }
    ensures promises { IfOk result (λ store. (kernel_of (ram_memory store)).machine.pages_taken ≤ (kernel_of (ram_memory store)).machine.promised) }
{
    match RamStore::new(alloc, 87, 1552) {
        Ok(mut store) => {
            setup(&mut store, 64, 100);
            Ok(store)
        }
        Err(NoMemory) => Err(Fail::from(NoMemory)),
    }
}

#[test]
fn a_pipe_without_ends_is_at_its_end_and_takes_nothing(rt: HostRuntime) -> Result<(), Fail> {
    let mut store = machine(rt.alloc())?;
    let pipe = empty_pipe(&rt, &mut store);
    let mut into = [7; 8];
    assert!(rt; take(&mut store, pipe, &mut into) == Piped::End);
    assert!(rt; put(&mut store, pipe, b"x") == Err(Errno::Epipe));
    assert!(rt; into[0] == 7);
    Ok(())
}

#[test]
fn a_pipe_takes_all_bytes_or_none(rt: HostRuntime) -> Result<(), Fail> {
    let mut store = machine(rt.alloc())?;
    let pipe = empty_pipe(&rt, &mut store);
    open_both(&rt, &mut store, pipe);
    let bytes = [9; 4000];
    let mut into = [0; 4096];
    assert!(rt; take(&mut store, pipe, &mut into) == Piped::Wait);
    assert!(rt; put(&mut store, pipe, &bytes) == Ok(Piped::Moved(4000)));
    assert!(rt; put(&mut store, pipe, &bytes[..97]) == Ok(Piped::Wait));
    assert!(rt; put(&mut store, pipe, &bytes[..96]) == Ok(Piped::Moved(96)));
    assert!(rt; put(&mut store, pipe, &bytes[..1]) == Ok(Piped::Wait));
    assert!(rt; take(&mut store, pipe, &mut into) == Piped::Moved(4096));
    assert!(rt; take(&mut store, pipe, &mut into) == Piped::Wait);
    Ok(())
}

// A plain queue: all bytes that were put, and how many of them were taken.
#[derive(Drop)]
struct Plain {
    bytes: Vec<u8>,
    taken: usize,
}

// Puts so many bytes, which go on from a first one, to a pipe and to the queue.
fn put_some<T: Store>(
    rt: &impl Abort,
    store: &mut T,
    pipe: u32,
    plain: &mut Plain,
    size: usize,
    first: u8,
)
    requires good { PipeGood (kernel_of (T.memory store.old)) pipe }
    requires some { 1 ≤ size }
    requires few { size ≤ 4096 }
    ensures { PipeGood (kernel_of (T.memory store.new)) pipe }
{
    let mut piece = [0; 4096];
    for i in 0..size {
        piece[i] = first.wrapping_add((i % 256) as u8);
    }
    let held = plain.bytes.len().saturating_sub(plain.taken);
    match put(store, pipe, &piece[..size]) {
        Ok(Piped::Moved(count)) => {
            assert!(rt; count as usize == size);
            match plain.bytes.extend_from_slice(&piece[..size]) {
                Ok(()) => {}
                Err(_fault) => panic!(rt; "no memory"),
            }
        }
        Ok(Piped::Wait) => assert!(rt; held.saturating_add(size) > 4096),
        _ => panic!(rt; "no reader"),
    }
}

// Takes so many bytes of a pipe and of the queue.
fn take_some<T: Store>(rt: &impl Abort, store: &mut T, pipe: u32, plain: &mut Plain, size: usize)
    requires good { PipeGood (kernel_of (T.memory store.old)) pipe }
    requires some { 1 ≤ size }
    requires few { size ≤ 4096 }
    ensures { PipeGood (kernel_of (T.memory store.new)) pipe }
{
    let mut piece = [0; 4096];
    let held = plain.bytes.len().saturating_sub(plain.taken);
    match take(store, pipe, &mut piece[..size]) {
        Piped::Moved(count) => {
            assert!(rt; count as usize == size.min(held));
            let end = plain.taken.saturating_add(count as usize);
            assert!(rt;
                Some(&piece[..size.min(count as usize)]) == plain.bytes.get(plain.taken..end)
            );
            plain.taken = end;
        }
        Piped::Wait => assert!(rt; held == 0),
        Piped::End => panic!(rt; "no writer"),
    }
}

// So many steps, each of so many bytes as a row of numbers says.
fn walk<T: Store>(rt: &impl Abort, store: &mut T, pipe: u32, plain: &mut Plain)
    requires good { PipeGood (kernel_of (T.memory store.old)) pipe }
    ensures { PipeGood (kernel_of (T.memory store.new)) pipe }
{
    let mut random = 1u32;
    'walking: for _ in 0..5000 {
        random = random.wrapping_mul(1_664_525).wrapping_add(1_013_904_223);
        let size = (random / 65_536 % 1_500) as usize + 1;
        if random / 4_096 % 2 == 0 {
            put_some(rt, store, pipe, plain, size, (random / 256 % 256) as u8);
        } else {
            take_some(rt, store, pipe, plain, size);
        }
    }
}

#[test]
fn takes_and_puts_around_the_end_of_the_page_go_as_in_a_plain_queue(
    rt: HostRuntime,
) -> Result<(), Fail> {
    let mut store = machine(rt.alloc())?;
    let pipe = empty_pipe(&rt, &mut store);
    open_both(&rt, &mut store, pipe);
    let mut plain = Plain {
        bytes: Vec::new(rt.alloc()),
        taken: 0,
    };
    walk(&rt, &mut store, pipe, &mut plain);
    assert!(rt; plain.taken > 100_000);
    Ok(())
}
