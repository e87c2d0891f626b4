//! A machine that changes one block in each interval.
ghost use Rattle.std.specs.Prelude.{ℕ, List};
ghost use Rattle.tests_disk.specs.Counting.{counted, counted-none};

use migrate::Turns;
use obj_store::RamStore;

/// In each interval all bytes of block 40 become the next number.
#[derive(Clone, Copy, Debug)]
pub(crate) struct Counting {
    pub next: u8,
}

impl Turns for Counting {
    ghost plan = { λ s blocks n. counted s.next blocks n };

    fn interval(&mut self, store: &mut RamStore) {
        store.put_block(40, &[self.next; 4096]);
        store.mark(40);
        self.next = self.next.wrapping_add(1);
    }

    ghost plan_none = { λ s blocks. counted-none s.next blocks };
}
