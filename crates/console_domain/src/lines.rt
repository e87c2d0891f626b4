//! Lines of the console's input.

ghost use Rattle.std.specs.Prelude.{◌≡◌, ◌≤◌, ℕ, List, Some, IfOk, OnOk, OnErr, length, take, drop};
ghost use Rattle.kn_io.specs.Faults.{Rose};
ghost use Rattle.unix_model.specs.FileCalls.{line_left, line_taken};
ghost use Rattle.console_domain.specs.Lines.{LosesFront};

use kn_io::{Failed, ReadFault, Source};

/// The byte that ends a line (ASCII, LF).
const LINE_FEED: u8 = 10;

/// Takes a line of a source: bytes until a line feed was taken, `into`, of at most 4,096 bytes, is full, or the source is at its
/// end, and no byte more. They are the first ones of `into`, as many as is answered; those behind them stay (POSIX.1 read(2) on a
/// terminal, narrowed: the end of the input ends a line too).
///
/// # Errors
///
/// `ReadFault` only where the source's count of faults rose; at Ok the count is as before. A front of the line is gone from the
/// source then: it is the first part of `into`, and how long it is isn't told.
pub fn read_line<S: Source>(input: &mut S, into: &mut [u8]) -> Result<u32, ReadFault>
    requires few { length into.old ≤ 4096 }
    ensures count { IfOk result (λ count. count ≤ length into.old) }
    ensures line { IfOk result (λ count. (bytes : List ℕ) → S.left input.old ≡ Some bytes → take count into.new ≡ line_taken (length into.old) bytes) }
    ensures left { IfOk result (λ count. (bytes : List ℕ) → S.left input.old ≡ Some bytes → S.left input.new ≡ Some (line_left (length into.old) bytes)) }
    ensures behind { IfOk result (λ count. drop count into.new ≡ drop count into.old) }
    ensures lost { OnErr result ((bytes : List ℕ) → S.left input.old ≡ Some bytes → LosesFront bytes (line_taken (length into.old) bytes) (S.left input.new) into.old into.new) }
    ensures same { OnOk result (S.faults input.new ≡ S.faults input.old) }
    ensures counted { S.faults input.old ≤ S.faults input.new }
    ensures failed { OnErr result (Rose (S.faults input.old) (S.faults input.new)) }
{
    let mut count = 0;
    'taking: while count < into.len() {
        let byte = match input.next() {
            Ok(Some(byte)) => byte,
            Ok(None) => return Ok(count as u32),
            Err(Failed) => return Err(ReadFault),
        };
        into[count] = byte;
        count += 1;
        let ended = byte == LINE_FEED;
        if ended {
            return Ok(count as u32);
        }
    }
    Ok(count as u32)
}
