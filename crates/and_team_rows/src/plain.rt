//! Calls on the tree of one thread, as worked examples.

ghost use Rattle.std.specs.Prelude.{◌≡◌, ◌<◌, ◌≤◌, ◌*◌, [], ◌∷◌, length, IfOk};
ghost use Rattle.and_model.specs.Codes.{numbers_of};
ghost use Rattle.and_histories.specs.PlainTree.{joined, opening};

use crate::leaves::Leaf;
use crate::saying::say;
use and_model::{ClauseList, ClauseNo, Code};
use and_rows::Untold;
use and_tree::{Claimed, PlainTree, Published};
use std::alloc::{AllocError, Global};

/// A fork that is nothing but its keys.
#[derive(Drop)]
struct Forked {
    key: Code,
    longer: Code,
    clauses: ClauseList,
}

/// The key of one clause.
fn key_of_one(alloc: Global, clause: u16) -> Result<Code, AllocError>
    ensures { IfOk result (λ key. key ≡ clause ∷ []) }
{
    let mut key = Code::new(alloc);
    key.push(ClauseNo(clause))?;
    Ok(key)
}

/// A fork of the root into two children, by the clauses 1 and 2.
fn fork_of_root(alloc: Global) -> Result<Forked, AllocError>
    ensures key { IfOk result (λ split. (split.key ≡ []) × (split.longer ≡ [])) }
    ensures clauses { IfOk result (λ split. numbers_of split.clauses ≡ 1 ∷ 2 ∷ []) }
{
    let mut clauses = ClauseList::new(alloc);
    let (Ok(()), Ok(())) = (clauses.push(ClauseNo(1)), clauses.push(ClauseNo(2))) else {
        return Err(AllocError);
    };
    Ok(Forked {
        key: Code::new(alloc),
        longer: Code::new(alloc),
        clauses,
    })
}

/// A tree of so many teams of which the first has claimed the root, and the root.
fn with_claimed_root(
    alloc: Global,
    out: &mut String,
    teams: u32,
) -> Result<(PlainTree<Leaf>, Leaf), Untold>
    requires { (0 < teams) × (teams ≤ 16) }
    ensures key { IfOk result (λ made. made.1.key ≡ []) }
    ensures hands { IfOk result (λ made. made.0.state.hands ≡ (joined (opening teams) 0 []).hands) }
    ensures cells { IfOk result (λ made. length made.0.state.cells ≡ 8 * teams) }
{
    let root = Leaf {
        key: Code::new(alloc),
    };
    let Ok(mut tree) = PlainTree::open(alloc, teams, 100, root) else {
        return Err(Untold::Memory);
    };
    say(alloc, out, (tree.left(0), tree.look(0, 0)))?;
    match tree.claim(0, 0, 1)? {
        Claimed::Taken(branch) => Ok((tree, branch)),
        Claimed::Moved(_seen) => Err(Untold::Malformed),
    }
}

/// The root is forked, one child is retired and the other answers.
pub(crate) fn calls(alloc: Global) -> Result<String, Untold> {
    let mut out = String::new(alloc);
    let (mut tree, branch) = with_claimed_root(alloc, &mut out, 1)?;
    let split = fork_of_root(alloc)?;
    tree.fork(0, &split.key, &split.longer, &split.clauses)?;
    say(alloc, &mut out, (branch.key.len(), tree.left(0)))?;
    say(alloc, &mut out, tree.retire(0, &key_of_one(alloc, 1)?))?;
    say(alloc, &mut out, tree.answer(0, &key_of_one(alloc, 2)?))?;
    let counts = tree.close();
    say(
        alloc,
        &mut out,
        (counts.forks, counts.answers, counts.retired),
    )?;
    Ok(out)
}

/// One of two teams claims the root, the other is too late; then the first publishes it in its own cell, and the other
/// claims it there and retires it.
pub(crate) fn handed_over(alloc: Global) -> Result<String, Untold> {
    let mut out = String::new(alloc);
    let (mut tree, branch) = with_claimed_root(alloc, &mut out, 2)?;
    let Claimed::Moved(seen) = tree.claim(1, 0, 1)? else {
        return Err(Untold::Malformed);
    };
    let Published::Done = tree.publish(0, 1, branch) else {
        return Err(Untold::Malformed);
    };
    let Claimed::Taken(branch) = tree.claim(1, 1, 1)? else {
        return Err(Untold::Malformed);
    };
    say(
        alloc,
        &mut out,
        (seen, tree.retire(1, &branch.key), tree.left(1)),
    )?;
    let counts = tree.close();
    say(alloc, &mut out, (counts.forks, counts.retired))?;
    Ok(out)
}

/// The first of two teams claims the root and gives it up.
pub(crate) fn given_up(alloc: Global) -> Result<String, Untold> {
    let mut out = String::new(alloc);
    let (mut tree, branch) = with_claimed_root(alloc, &mut out, 2)?;
    say(
        alloc,
        &mut out,
        (tree.give_up(0, &branch.key), tree.left(1)),
    )?;
    say(alloc, &mut out, tree.close().given_up)?;
    Ok(out)
}
