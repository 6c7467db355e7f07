//! Two entries whose codes stand behind one code: which comes first, and how the other stands behind it.

ghost use Rattle.std.specs.Prelude.{◌≡◌, ℕ, List, true, false};
ghost use Rattle.and_answers.specs.Runs.{IsBehind};

use crate::comparing::{in_common, is_no_sooner};
use crate::tail::Tail;

/// Two entries in the order of their codes.
#[derive(Drop)]
pub(crate) struct Ordered {
    pub first: Tail,
    /// It stands behind the first one.
    pub second: Tail,
    /// Whether they were in the other order before.
    pub is_turned: bool,
}

/// Puts two entries in order whose codes stand behind one code. Takes no memory.
pub(crate) fn meet(one: Tail, other: Tail) -> Ordered
    ensures behind { (last : List ℕ) → IsBehind last one → IsBehind last other
        → IsBehind last result.first × IsBehind result.first.entry.code.value result.second }
    ensures straight { result.is_turned ≡ false
        → (result.first.entry ≡ one.entry) × (result.second.entry ≡ other.entry) }
    ensures turned { result.is_turned ≡ true
        → (result.first.entry ≡ other.entry) × (result.second.entry ≡ one.entry) }
{
    if one.common > other.common {
        return Ordered {
            first: one,
            second: other,
            is_turned: false,
        };
    }
    if one.common < other.common {
        return Ordered {
            first: other,
            second: one,
            is_turned: true,
        };
    }
    meet_alike(one, other)
}

/// Puts two entries in order that have as much in common with the code before. Takes no memory.
fn meet_alike(one: Tail, other: Tail) -> Ordered
    requires { one.common ≡ other.common }
    ensures behind { (last : List ℕ) → IsBehind last one → IsBehind last other
        → IsBehind last result.first × IsBehind result.first.entry.code.value result.second }
    ensures straight { result.is_turned ≡ false
        → (result.first.entry ≡ one.entry) × (result.second.entry ≡ other.entry) }
    ensures turned { result.is_turned ≡ true
        → (result.first.entry ≡ other.entry) × (result.second.entry ≡ one.entry) }
{
    let count = in_common(&one.rest, one.from, &other.rest, other.from);
    if is_no_sooner(&one.rest, one.from + count, &other.rest, other.from + count) {
        return Ordered {
            first: one,
            second: other.later(count),
            is_turned: false,
        };
    }
    Ordered {
        first: other,
        second: one.later(count),
        is_turned: true,
    }
}
