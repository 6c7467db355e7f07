//! The fork tree of a program's query.

ghost use Rattle.std.specs.Prelude.{◌≡◌, ◌≤◌, IfOk};
ghost use Rattle.and_model.specs.declared.limits.TheConstants.{MAX_LIMIT};
ghost use Rattle.and_program.specs.Loaded.{program_of};
ghost use Rattle.and_questions.specs.Forked.{WasForked, tree_status};

use and_clause_index::compile;
use and_forks::{Walk, fork_tree};
use and_gate::Gate;
use and_model::Text;
use and_program::Loaded;
use and_questions::Reply;
use and_status::Status;
use std::alloc::{AllocError, Global};

/// The status of a tree with so many answers and so many branches that floundered.
fn status_of_tree(answers: u64, floundered: u64) -> Status
    ensures { result ≡ tree_status answers floundered }
{
    if floundered > 0 {
        Status::Floundered
    } else if answers > 0 {
        Status::Answers
    } else {
        Status::NoAnswer
    }
}

/// The fork tree of a program, and how it ended. An error is want of memory.
pub fn forked<G: Gate>(
    alloc: Global,
    limit: u32,
    loaded: &Loaded,
    gate: &G,
) -> Result<Reply, AllocError>
    requires { limit ≤ MAX_LIMIT }
    ensures { IfOk result (λ reply. WasForked limit (program_of loaded.now) reply.status reply.text) }
{
    let table = compile(alloc, loaded)?;
    let walk = fork_tree(alloc, loaded, &table, limit, gate)?;
    match walk {
        Walk::Whole {
            text,
            forks: _,
            failed: _,
            answers,
            floundered,
        } => {
            let mut text = text;
            text.append(b"% complete\n")?;
            let status = status_of_tree(answers, floundered);
            Ok(Reply {
                text,
                status,
                refusal: None,
            })
        }
        Walk::Cut(_) => Ok(Reply {
            text: Text::of(alloc, b"% limit met\n")?,
            status: Status::Limit,
            refusal: None,
        }),
    }
}
