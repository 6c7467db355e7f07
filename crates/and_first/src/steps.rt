//! The steps of a limit.

ghost use Rattle.std.specs.Prelude.{◌≤◌, ◌<◌, ℕ};
ghost use Rattle.and_model.specs.declared.limits.TheConstants.{MAX_LIMIT};
ghost use Rattle.and_first.specs.First.{IsStep};
ghost use Rattle.and_first.specs.Steps.{IsNext, EndsAt};

use crate::first::End;
use and_answers::Found;

/// The first step of a limit.
pub fn first_step(limit: u32) -> u32
    ensures is_step { IsStep limit result }
    ensures least { (other : ℕ) → IsStep limit other → result ≤ other }
{
    if 256 < limit { 256 } else { limit }
}

/// The step that comes after another.
pub fn step_after(step: u32, limit: u32) -> u32
    requires is_step { IsStep limit step }
    requires below { step < limit }
    requires limited { limit ≤ MAX_LIMIT }
    ensures { IsNext limit step result }
{
    let next = step * 4;
    if next < limit { next } else { limit }
}

/// How a search ended that found this within a step; `None` where a larger step is to be searched.
pub fn end_at(found: &Found, step: u32, limit: u32, count: usize) -> Option<End>
    ensures { EndsAt found.now step limit count result }
{
    if found.entries().len() >= count {
        return Some(End::Within(step));
    }
    if found.cut.is_none() {
        return Some(End::Complete);
    }
    if step >= limit {
        return Some(End::LimitMet);
    }
    None
}
