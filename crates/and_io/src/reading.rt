//! Reading to the end, up to a limit.
ghost use Rattle.std.specs.Prelude.{◌+◌, ◌-◌, ◌<◌, ◌≤◌, ◌^◌, ◌↔◌, length, IfOk, IfSome, IsErrOf};
ghost use Rattle.and_io.specs.Flow.{Rose, Stays, TakesAtMost};
ghost use Rattle.and_io.specs.ReadAll.{ReadsUpTo, TookAtMost, TookUpTo, IsOver};

use crate::outside::{Failed, Source};
use and_model::Text;
use std::alloc::{AllocError, Global};

/// What was read.
#[derive(Drop)]
pub enum ReadAll {
    /// All the bytes that were left, within the limit.
    Whole(Text),
    /// One byte more than the limit. The rest is unread.
    Over(Text),
}

/// Why there is nothing to show. The bytes that were taken until then are gone.
#[derive(Clone, Copy, Debug, PartialEq, Eq)]
pub enum ReadStop {
    /// The source failed.
    Failed,
    /// Want of memory.
    Memory,
}

/// How many bytes one read asks for at most.
const PIECE: usize = 4096;

/// Reads to the end, or until there were more than `limit` bytes.
pub fn read_all<S: Source>(alloc: Global, source: &mut S, limit: usize) -> Result<ReadAll, ReadStop>
    requires { limit < 2 ^ 32 - 1 }

    // The bytes that the source gave.
    ensures took { IfOk result (TookUpTo limit (S.taken source.old) (S.taken source.new) (S.ended source.new)) }
    ensures took_at_failed { IsErrOf result ReadStop.Failed
        → TookAtMost limit (S.taken source.old) (S.taken source.new) }
    ensures took_at_memory { IsErrOf result ReadStop.Memory →
        TookAtMost (limit + 1) (S.taken source.old) (S.taken source.new) }

    // The bytes that are left.
    ensures read { IfOk result (ReadsUpTo limit (S.left source.old) (S.left source.new)) }
    ensures over { IfOk result (λ read.
        IfSome (S.left source.old) (λ all. IsOver read ↔ (limit < length all))) }
    ensures taken_at_failed { IsErrOf result ReadStop.Failed →
        TakesAtMost limit (S.left source.old) (S.left source.new) }
    ensures taken_at_memory { IsErrOf result ReadStop.Memory →
        TakesAtMost (limit + 1) (S.left source.old) (S.left source.new) }

    // The faults.
    ensures count { S.faults source.old ≤ S.faults source.new }
    ensures stays { Stays S.last (S.faults source.old) (S.faults source.new) }
    ensures cause { IsErrOf result ReadStop.Failed →
        Rose S.last (S.faults source.old) (S.faults source.new) }
{
    let mut text = Text::new(alloc);
    let mut piece = [0u8; PIECE];
    'reading: while text.len() <= limit {
        let wanted = (limit + 1 - text.len()).min(PIECE);
        let Ok(n) = source.read(&mut piece[..wanted]) else {
            return Err(ReadStop::Failed);
        };
        if n == 0 {
            return Ok(ReadAll::Whole(text));
        }
        if text.append(&piece[..n]).is_err() {
            return Err(ReadStop::Memory);
        }
    }
    Ok(ReadAll::Over(text))
}
