//! The console's output.

ghost use Rattle.std.specs.Prelude.{◌≡◌, ◌≤◌, OnOk, OnErr};
ghost use Rattle.kn_io.specs.Faults.{Rose};
ghost use Rattle.kn_io.specs.Sink.{GrewByPrefix};

use kn_io::{Failed, Sink, WriteFault};

/// Puts bytes to a sink, all of them and in order, by one put.
///
/// # Errors
///
/// `WriteFault` only where the sink's count of faults rose; at Ok the count is as before. The sink got a front of the bytes then.
pub fn write_bytes<K: Sink>(output: &mut K, from: &[u8]) -> Result<(), WriteFault>
    ensures grew { OnOk result (K.grew output.old from.now output.new) }
    ensures part { OnErr result (GrewByPrefix K.grew output.old from.now output.new) }
    ensures same { OnOk result (K.faults output.new ≡ K.faults output.old) }
    ensures counted { K.faults output.old ≤ K.faults output.new }
    ensures failed { OnErr result (Rose (K.faults output.old) (K.faults output.new)) }
{
    match output.put(from) {
        Ok(()) => Ok(()),
        Err(Failed) => Err(WriteFault),
    }
}
