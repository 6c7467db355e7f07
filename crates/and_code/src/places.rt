//! Reductions by the calls that they take.

ghost use Rattle.std.specs.Prelude.{◌≡◌, ◌≢◌, ◌≤◌, ◌<◌, ℕ, true, false, Some, None, length, get_or, All, IfOk, IfSome};
ghost use Rattle.and_model.specs.declared.goal.Reduction.{Reduction};
ghost use Rattle.and_code.specs.Places.{AreLinks, IsMissing, IsPassed, IsPlace};

use and_model::{Reduction, ReductionList};
use std::alloc::{AllocError, Global};

/// The reductions of a list, linked by the nodes at which they take calls. A link is the place just
/// behind the reduction to which it leads, and 0 where it leads to none.
pub(crate) struct Links {
    /// By node: to the last reduction that takes a call there.
    last: Vec<u32>,
    /// By the place of a reduction: to the one before it that takes a call at the same node.
    before: Vec<u32>,
}

// By hand, so that it is proved once, here.
impl Drop for Links {
    fn drop(self) {
        let Links { last: _, before: _ } = self;
    }
}

/// The larger of two numbers.
fn larger(one: usize, other: usize) -> usize
    ensures first { one ≤ result }
    ensures second { other ≤ result }
{
    if one < other { other } else { one }
}

/// A number above those of all nodes at which the reductions take calls.
fn node_count(reductions: &ReductionList) -> usize
    ensures { All (λ (r : Reduction). r.parent < result) reductions.now }
{
    let mut count = 0;
    for place in 0..reductions.len() {
        let node = reductions.at(place).parent as usize;
        count = larger(count, node + 1);
    }
    count
}

impl Links {
    /// Links the reductions of a list. An error is want of memory, or more reductions than links can tell.
    pub(crate) fn of(alloc: Global, reductions: &ReductionList) -> Result<Links, AllocError>
        ensures { IfOk result (AreLinks reductions.now) }
    {
        if reductions.len() >= u32::MAX as usize {
            return Err(AllocError);
        }
        let mut last = Vec::new(alloc);
        last.resize(node_count(reductions), 0)?;
        let mut before = Vec::with_capacity(alloc, reductions.len())?;
        for place in 0..reductions.len() {
            let node = reductions.at(place).parent as usize;
            before.push_reserved(last[node]);
            last[node] = place as u32 + 1;
        }
        Ok(Links { last, before })
    }

    /// The link of a node.
    fn last_at(&self, node: u32) -> u32
        ensures { result ≡ get_or self.now.last.items node 0 }
    {
        match self.last.get(node as usize) {
            Some(last) => *last,
            None => 0,
        }
    }
}

/// How many places are looked at for a call before all are.
const NEAR: usize = 4;

/// How often all places are looked at before links are made.
pub(crate) const LOOKS: u32 = 4;

/// The place of the reduction that takes a call, if there is one. It mostly stands near the place `from`;
/// where it doesn't, all places are looked at, and once `looks` has come to 0 the links. An error is want
/// of memory.
pub(crate) fn find(
    alloc: Global,
    links: &mut Option<Links>,
    looks: &mut u32,
    reductions: &ReductionList,
    node: u32,
    item: usize,
    from: usize,
) -> Result<Option<usize>, AllocError>
    requires { IfSome links.old (AreLinks reductions.now) }
    ensures some { IfOk result (λ found. (place : ℕ) → found ≡ Some place → IsPlace reductions.now node item place) }
    ensures none { IfOk result (λ found. found ≡ None → IsMissing reductions.now node item) }
    ensures links { IfOk result (λ _. IfSome links.new (AreLinks reductions.now)) }
{
    if let Some(place) = near(reductions, node, item, from) {
        return Ok(Some(place));
    }
    if let Some(made) = links {
        return Ok(linked(made, reductions, node, item));
    }
    if *looks > 0 {
        *looks -= 1;
        return Ok(anywhere(reductions, node, item));
    }
    let made = Links::of(alloc, reductions)?;
    let found = linked(&made, reductions, node, item);
    *links = Some(made);
    Ok(found)
}

/// The place of the first reduction that takes a call, if there is one.
fn anywhere(reductions: &ReductionList, node: u32, item: usize) -> Option<usize>
    ensures some { (place : ℕ) → result ≡ Some place → IsPlace reductions.now node item place }
    ensures none { result ≡ None → IsMissing reductions.now node item }
{
    among(reductions, node, item, 0, reductions.len())
}

/// The place of a reduction that takes a call, if one of the next few from a place on does.
fn near(reductions: &ReductionList, node: u32, item: usize, from: usize) -> Option<usize>
    ensures { (place : ℕ) → result ≡ Some place → IsPlace reductions.now node item place }
{
    let count = reductions.len();
    if from >= count {
        return None;
    }
    let to = if count - from > NEAR {
        from + NEAR
    } else {
        count
    };
    among(reductions, node, item, from, to)
}

/// The place of the first reduction that takes a call, from a place on and before another.
fn among(
    reductions: &ReductionList,
    node: u32,
    item: usize,
    from: usize,
    to: usize,
) -> Option<usize>
    requires { to ≤ length reductions.now }
    ensures some { (place : ℕ) → result ≡ Some place → IsPlace reductions.now node item place }
    ensures none { result ≡ None → IsPassed reductions.now node item from to }
{
    for place in from..to {
        if takes(reductions.at(place), node, item) {
            return Some(place);
        }
    }
    None
}

/// Whether a reduction takes a call.
fn takes(reduction: &Reduction, node: u32, item: usize) -> bool
    ensures yes { result ≡ true → (reduction.now.parent ≡ node) × (reduction.now.item ≡ item) }
    ensures no { result ≡ false → reduction.now.parent ≡ node → reduction.now.item ≢ item }
{
    reduction.parent == node && reduction.item as usize == item
}

/// The place of the reduction that takes a call, if there is one, along the links.
fn linked(links: &Links, reductions: &ReductionList, node: u32, item: usize) -> Option<usize>
    requires { AreLinks reductions.now links.now }
    ensures some { (place : ℕ) → result ≡ Some place → IsPlace reductions.now node item place }
    ensures none { result ≡ None → IsMissing reductions.now node item }
{
    let mut behind = links.last_at(node);
    while behind > 0 {
        let place = behind as usize - 1;
        let reduction = *reductions.at(place);
        if reduction.item as usize == item {
            return Some(place);
        }
        behind = links.before[place];
    }
    None
}
