//! What the system asks of the world outside: where its bytes come from, and where they go.
ghost use Rattle.std.specs.Prelude.{◌≡◌, ℕ, ◌<◌, ◌≤◌, ◌++◌, List, [], Option, length, take, IfOk, OnErr};
ghost use Rattle.and_io.specs.Flow.{Rose, Stays, Takes, AreAll};

/// A read or a write failed, and this was counted.
#[derive(Clone, Copy, Debug, PartialEq, Eq)]
pub struct Failed;

/// Where bytes come from.
pub trait Source {
    /// The bytes that it has given so far.
    ghost taken: { Self → List ℕ };

    /// It has told that there are no more.
    ghost ended: { Self → Type 0 };

    /// The bytes that are left, where the source tells them.
    ghost left: { Self → Option (List ℕ) };

    /// How many faults it had.
    ghost faults: { Self → ℕ };

    /// The last value of that count, at which it stays, where it has one.
    ghost last: { Option ℕ };

    /// Moves some bytes to the front of `into`, and gives their number. It is 0 for a piece that is
    /// not empty only at the end of the bytes. What stands behind them in `into` may be anything.
    fn read(&mut self, into: &mut [u8]) -> Result<usize, Failed>
        // The bytes that it gives.
        ensures within { IfOk result (λ n. n ≤ length into.old) }
        ensures gives { IfOk result (λ n. taken self.new ≡ taken self.old ++ take n into.new) }
        ensures ends { IfOk result (λ n. n ≡ 0 → 0 < length into.old → ended self.new) }
        ensures gives_none { OnErr result (taken self.new ≡ taken self.old) }

        // The bytes that are left.
        ensures front { IfOk result (λ n. Takes (left self.old) (left self.new) (take n into.new)) }
        ensures end { IfOk result (λ n. n ≡ 0 → 0 < length into.old → AreAll (left self.old) []) }
        ensures kept { OnErr result (left self.new ≡ left self.old) }

        // The faults.
        ensures count { faults self.old ≤ faults self.new }
        ensures stays { Stays last (faults self.old) (faults self.new) }
        ensures cause { OnErr result (Rose last (faults self.old) (faults self.new)) };
}

/// Where bytes go.
pub trait Sink {
    /// The bytes that it has been given so far.
    ghost given: { Self → List ℕ };

    /// How many faults it had.
    ghost faults: { Self → ℕ };

    /// The last value of that count, at which it stays, where it has one.
    ghost last: { Option ℕ };

    /// Takes some bytes from the front of `from`, and gives their number. It is at least 1 for a
    /// piece that is not empty.
    fn write(&mut self, from: &[u8]) -> Result<usize, Failed>
        // The bytes.
        ensures within { IfOk result (λ n. n ≤ length from.now) }
        ensures some { IfOk result (λ n. 0 < length from.now → 0 < n) }
        ensures gains { IfOk result (λ n. given self.new ≡ given self.old ++ take n from.now) }
        ensures kept { OnErr result (given self.new ≡ given self.old) }

        // The faults.
        ensures count { faults self.old ≤ faults self.new }
        ensures stays { Stays last (faults self.old) (faults self.new) }
        ensures cause { OnErr result (Rose last (faults self.old) (faults self.new)) };
}
