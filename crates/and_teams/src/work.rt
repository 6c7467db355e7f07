//! How a team works until nothing is left.

ghost use Rattle.std.specs.Prelude.{◌≡◌, [], None, false, OnOk, IfOk, IfSome, true};
ghost use Rattle.and_answers.specs.Kept.{listed};
ghost use Rattle.and_cells.specs.Parts.{named};
ghost use Rattle.and_clause_index.specs.Tables.{IsTableOf};
ghost use Rattle.and_tasks.specs.Working.{Has, IsAtWork, IsDone, SeesNone};
ghost use Rattle.and_tree.specs.Passes.{fresh};

use crate::turning::turn;
use and_answers::Coded;
use and_cells::Naming;
use and_gate::Gate;
use and_phase::Pace;
use and_tasks::{PlacedBranch, Shared, Team};
use and_tree::TreePass;
use crossbeam_utils::Backoff;
use std::alloc::{AllocError, Global};
use std::sync::Wait;
use std::thread::{Parker, Threads};
use std::time::Duration;

/// So long a team sleeps for which nothing is to be done, before it looks again, in microseconds.
const NAP: u64 = 50;

/// What a team begins with. Teams are made where they work, so that what goes to their threads is small.
pub struct Beginning<N: Naming> {
    pub number: u32,
    pub pass: TreePass<PlacedBranch<N>>,
    ghost number_is: { pass.team ≡ number },
}

// By hand, so that it is proved once, here.
impl<N: Naming> Drop for Beginning<N> {
    fn drop(self) {
        let Beginning { number: _, pass: _ } = self;
    }
}

impl<N: Naming> Beginning<N> {
    /// The beginning of the team with this number and pass.
    pub fn new(number: u32, pass: TreePass<PlacedBranch<N>>) -> Beginning<N>
        requires { pass.team ≡ number }
        ensures { result.pass ≡ pass }
    {
        Beginning { number, pass }
    }

    /// A team that has done nothing.
    fn into_team(self, alloc: Global) -> Team<N>
        ensures { (result.pass ≡ self.pass) × (listed result.found ≡ []) × (result.found.cut ≡ None)
            × (result.found.forks ≡ 0)
            × (result.found.failed ≡ 0) × (result.stack.items ≡ []) }
    {
        let Beginning { number, pass } = self;
        Team::new(alloc, number, pass)
    }
}

/// What a team found, its pass, and whether it met want of memory.
pub struct Worked<N: Naming> {
    pub found: Coded,
    pub pass: TreePass<PlacedBranch<N>>,
    pub has_failed: bool,
}

// By hand, so that it is proved once, here.
impl<N: Naming> Drop for Worked<N> {
    fn drop(self) {
        let Worked {
            found: _,
            pass: _,
            has_failed: _,
        } = self;
    }
}

impl<N: Naming> Worked<N> {
    /// What the team found, and its pass; `None` where it met want of memory. Takes no memory.
    pub fn into_parts(self) -> Option<(Coded, TreePass<PlacedBranch<N>>)>
        ensures { IfSome result (λ r. (self.has_failed ≡ false) × (r.0 ≡ self.found) × (r.1 ≡ self.pass)) }
    {
        let Worked {
            found,
            pass,
            has_failed,
        } = self;
        if has_failed {
            drop(found);
            drop(pass);
            return None;
        }
        Some((found, pass))
    }
}

/// Works until no branch is left, of this team or of another. After want of memory the team gives up
/// what it has, so that others do not wait for it, and stops with no key in its hand.
pub fn work<N: Naming + Send + Sync, R: Threads + Wait + Sync, G: Gate>(
    rt: &R,
    shared: &Shared<N, G>,
    beginning: Beginning<N>,
) -> Worked<N>
    requires program { N.program ≡ named shared.now.loaded.now }
    requires table { IsTableOf N.program shared.now.table.now }
    requires fresh { beginning.pass ≡ fresh shared.now.tree.now beginning.number }
    ensures tree { result.pass.tree ≡ shared.now.tree.now }
    ensures team { result.pass.team ≡ beginning.number }
    ensures done { result.has_failed ≡ false
        → IsDone N.program.program shared.now.tree.now result.pass result.found }
    ensures given_up { result.has_failed ≡ true → result.pass.hand ≡ [] }
{
    let mut team = beginning.into_team(shared.alloc);
    let has_failed = works_on(rt, shared, &mut team);
    let (found, pass) = team.into_parts();
    Worked {
        found,
        pass,
        has_failed,
    }
}

/// Works until no branch is left. Answers whether the team met want of memory.
fn works_on<N: Naming + Send + Sync, R: Threads + Wait + Sync, G: Gate>(
    rt: &R,
    shared: &Shared<N, G>,
    team: &mut Team<N>,
) -> bool
    requires program { N.program ≡ named shared.now.loaded.now }
    requires table { IsTableOf N.program shared.now.table.now }
    requires at_work { IsAtWork N.program shared.now.tree.now team.old.pass team.old.found team.old.stack.items
        team.old.left }
    ensures tree { team.new.pass.tree ≡ shared.now.tree.now }
    ensures number { team.new.number ≡ team.old.number }
    ensures done { result ≡ false → IsDone N.program.program shared.now.tree.now team.new.pass team.new.found }
    ensures given_up { result ≡ true → team.new.pass.hand ≡ [] }
{
    let mut pace = Pace::new();
    'working: for _ in rt.forever() {
        match go_on(rt, shared, team, &mut pace) {
            Ok(true) => {}
            Ok(false) => return false,
            Err(AllocError) => {
                team.give_up(shared);
                return true;
            }
        }
    }
    unreachable!()
}

/// Goes on with a branch of its own, or with one that it waits for. Answers whether there was one.
fn go_on<N: Naming + Send + Sync, R: Threads + Wait + Sync, G: Gate>(
    rt: &R,
    shared: &Shared<N, G>,
    team: &mut Team<N>,
    pace: &mut Pace,
) -> Result<bool, AllocError>
    requires program { N.program ≡ named shared.now.loaded.now }
    requires table { IsTableOf N.program shared.now.table.now }
    requires at_work { IsAtWork N.program shared.now.tree.now team.old.pass team.old.found team.old.stack.items
        team.old.left }
    ensures has { Has N.program shared.now.tree.now team.new.pass team.new.stack.items }
    ensures at_work { OnOk result
        (IsAtWork N.program shared.now.tree.now team.new.pass team.new.found team.new.stack.items team.new.left) }
    ensures over { IfOk result (λ goes_on. goes_on ≡ false → SeesNone team.new.pass) }
    ensures same { team.new.number ≡ team.old.number }
{
    if turn(rt, shared, team, pace)? {
        return Ok(true);
    }
    wait(rt, shared, team)
}

/// Waits until it takes over a branch, or none is left. Answers whether it took one.
fn wait<N: Naming, R: Wait, G: Gate>(
    rt: &R,
    shared: &Shared<N, G>,
    team: &mut Team<N>,
) -> Result<bool, AllocError>
    requires at_work { IsAtWork N.program shared.now.tree.now team.old.pass team.old.found team.old.stack.items
        team.old.left }
    ensures has { Has N.program shared.now.tree.now team.new.pass team.new.stack.items }
    ensures at_work { OnOk result
        (IsAtWork N.program shared.now.tree.now team.new.pass team.new.found team.new.stack.items team.new.left) }
    ensures over { IfOk result (λ goes_on. goes_on ≡ false → SeesNone team.new.pass) }
    ensures same { team.new.number ≡ team.old.number }
{
    let backoff = Backoff::new();
    let parker = Parker::new();
    'waiting: for _ in rt.forever() {
        if team.take_over(shared)? {
            return Ok(true);
        }
        if shared.tree.left(&mut team.pass) == 0 {
            return Ok(false);
        }
        rest(rt, &backoff, &parker);
    }
    unreachable!()
}

/// Leaves the processor to others: for moments at first, and then asleep, a nap at a time. Nobody has to wake it.
fn rest<R: Wait>(rt: &R, backoff: &Backoff, parker: &Parker) {
    if backoff.is_completed() {
        parker.park_timeout(rt, Duration::from_micros(NAP));
    } else {
        backoff.snooze();
    }
}
