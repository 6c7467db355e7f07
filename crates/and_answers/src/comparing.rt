//! How codes are told apart.

ghost use Rattle.std.specs.Prelude.{◌≡◌, ◌+◌, ◌<◌, ◌≤◌, ◌^◌, ◌++◌, true, false, length, drop, IfOk, OnOk};
ghost use Rattle.and_answers.specs.Tails.{BeginAlike, MayFollow, ArePartedAtOnce, HaveInCommon};

use and_model::Code;
use std::alloc::{AllocError, Global};

/// How many clauses two codes have in common, each from a place on. Takes no memory.
pub(crate) fn in_common(one: &Code, one_from: usize, other: &Code, other_from: usize) -> usize
    requires one_inside { one_from ≤ length one.now }
    requires other_inside { other_from ≤ length other.now }
    ensures { HaveInCommon (drop one_from one.now) (drop other_from other.now) result }
{
    let most = one.len() - one_from;
    for count in 0..most {
        if count == other.len() - other_from {
            return count;
        }
        if one.at(one_from + count).0 != other.at(other_from + count).0 {
            return count;
        }
    }
    most
}

/// How many clauses two codes have in common, which are so many at least. Takes no memory.
pub(crate) fn all_in_common(one: &Code, other: &Code, common: usize) -> usize
    requires { BeginAlike one.now other.now common }
    ensures { HaveInCommon one.now other.now result }
{
    // (So many fit a word. This says so to what follows.)
    let _most = one.len();
    common + in_common(one, common, other, common)
}

/// Of two codes that part at these places, whether the second comes no sooner than the first. Takes no memory.
pub(crate) fn is_no_sooner(one: &Code, one_from: usize, other: &Code, other_from: usize) -> bool
    requires one_inside { one_from ≤ length one.now }
    requires other_inside { other_from ≤ length other.now }
    requires parted { ArePartedAtOnce (drop one_from one.now) (drop other_from other.now) }
    ensures later { result ≡ true → MayFollow (drop one_from one.now) (drop other_from other.now) }
    ensures sooner { result ≡ false → MayFollow (drop other_from other.now) (drop one_from one.now) }
{
    if one_from == one.len() {
        return true;
    }
    if other_from == other.len() {
        return false;
    }
    one.at(one_from).0 < other.at(other_from).0
}

/// The clauses of a code from a place on. An error is want of memory.
pub(crate) fn behind(alloc: Global, code: &Code, from: usize) -> Result<Code, AllocError>
    requires { from ≤ length code.now }
    ensures rest { IfOk result (λ rest. rest ≡ drop from code.now) }
    ensures fits { IfOk result (λ rest. from + length rest < 2 ^ 64) }
{
    // (So many fit a word, too.)
    let _most = code.len();
    let mut rest = Code::new(alloc);
    push_behind(&mut rest, code, from)?;
    Ok(rest)
}

/// Puts the clauses of a code from a place on behind those of another one. An error is want of memory.
pub(crate) fn push_behind(short: &mut Code, code: &Code, from: usize) -> Result<(), AllocError>
    requires { from ≤ length code.now }
    ensures { OnOk result (short.new ≡ short.old ++ drop from code.now) }
{
    for place in from..code.len() {
        short.push(*code.at(place))?;
    }
    Ok(())
}
