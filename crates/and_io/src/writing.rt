//! Writing all bytes, and counting those that went.
ghost use Rattle.std.specs.Prelude.{◌≡◌, ◌<◌, ◌≤◌, ◌++◌, length, take, OnOk, OnErr, IfErr};
ghost use Rattle.and_io.specs.Flow.{Rose, Stays};

use crate::outside::{Failed, Sink};

/// The sink failed before it had taken all bytes.
#[derive(Clone, Copy, Debug, PartialEq, Eq)]
pub struct Stopped {
    /// How many it had taken.
    pub written: usize,
}

/// Writes all bytes. Where the sink fails, it was given the first `written` of them. Takes no
/// memory.
pub fn write_all_counted<K: Sink>(sink: &mut K, bytes: &[u8]) -> Result<(), Stopped>
    // The bytes.
    ensures all { OnOk result (K.given sink.new ≡ K.given sink.old ++ bytes.now) }
    ensures before_the_end { IfErr result (λ s. s.written < length bytes.now) }
    ensures first { IfErr result (λ s. K.given sink.new ≡ K.given sink.old ++ take s.written bytes.now) }

    // The faults.
    ensures count { K.faults sink.old ≤ K.faults sink.new }
    ensures stays { Stays K.last (K.faults sink.old) (K.faults sink.new) }
    ensures cause { OnErr result (Rose K.last (K.faults sink.old) (K.faults sink.new)) }
{
    let mut written = 0;
    'writing: while written < bytes.len() {
        match sink.write(&bytes[written..]) {
            Ok(n) => written += n,
            Err(Failed) => return Err(Stopped { written }),
        }
    }
    Ok(())
}
