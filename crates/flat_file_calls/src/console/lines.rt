//! Lines of the console's input.

ghost use Rattle.std.specs.Prelude.{◌≡◌, ◌≤◌, ℕ, List, Some, Err, IfOk, OnErr, length};
ghost use Rattle.kn_io.specs.Faults.{Rose};
ghost use Rattle.unix_model.specs.FileCalls.{line_left, line_taken};
ghost use Rattle.flat_file_calls.specs.Console.{CountsSame, TakesFront};

use crate::console::fault::ConsoleFault;
use kn_io::{Failed, Source};
use std::alloc::Global;

/// The byte that ends a line (ASCII, LF).
const LINE_FEED: u8 = 10;

/// Takes at most `count` bytes of a source, up to and with the first line feed.
pub(crate) fn take_line<S: Source>(
    alloc: Global,
    count: u32,
    from: &mut S,
) -> Result<Vec<u8>, ConsoleFault>
    requires { count ≤ 4096 }
    ensures taken { IfOk result (λ line. (bytes : List ℕ) → S.left from.old ≡ Some bytes → line.items ≡ line_taken count bytes) }
    ensures left { IfOk result (λ line. (bytes : List ℕ) → S.left from.old ≡ Some bytes → S.left from.new ≡ Some (line_left count bytes)) }
    ensures few { IfOk result (λ line. length line.items ≤ count) }
    ensures part { OnErr result ((bytes : List ℕ) → S.left from.old ≡ Some bytes → TakesFront bytes (line_taken count bytes) (S.left from.new)) }
    ensures failed { result ≡ Err ConsoleFault.Failed → Rose (S.faults from.old) (S.faults from.new) }
    ensures same { CountsSame (S.faults from.new ≡ S.faults from.old) result }
    ensures counted { S.faults from.old ≤ S.faults from.new }
{
    let mut line = Vec::new(alloc);
    let mut room = count;
    'taking: while room > 0 {
        let byte = match from.next() {
            Ok(Some(byte)) => byte,
            Ok(None) => return Ok(line),
            Err(Failed) => return Err(ConsoleFault::Failed),
        };
        match line.push(byte) {
            Ok(()) => {}
            Err(_) => return Err(ConsoleFault::NoMemory),
        }
        if byte == LINE_FEED {
            return Ok(line);
        }
        room -= 1;
    }
    Ok(line)
}
