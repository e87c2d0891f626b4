//! Writes that pass the end of a page.

ghost use Rattle.std.specs.Prelude.{◌≡◌, ◌<◌, ◌≤◌, ◌+◌, ◌-◌, ℕ, length, take, drop, slice_set};
ghost use Rattle.kn_base.specs.Rows.{overwritten};
ghost use Rattle.kn_base.specs.Memory.{Memory, page_at};

use kn_base::{PageId, Store};

/// Writes bytes into a page from `at` on, of which the last stand in the page behind it.
pub fn write_across<T: Store>(store: &mut T, page: PageId, at: u16, from: &[u8])
    requires pages { page.0 + 1 < length (T.memory store.old).pages }
    requires begins { at < 4096 }
    requires passes_the_end { 4096 ≤ at + length from.now }
    requires within { at + length from.now ≤ 8192 }
    ensures written { T.memory store.new ≡ record (T.memory store.old) { pages = slice_set (slice_set (T.memory store.old).pages page.0 (overwritten (page_at (T.memory store.old) page.0) at (take (4096 - at) from.now))) (page.0 + 1) (overwritten (page_at (T.memory store.old) (page.0 + 1)) 0 (drop (4096 - at) from.now)) } }
    ensures keeps { T.keeps store.old store.new }
{
    let in_first = 4096 - at as usize;
    let next = PageId(page.0 + 1);
    store.write_page(page, at, &from[..in_first]);
    store.write_page(next, 0, &from[in_first..]);
}
