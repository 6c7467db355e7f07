//! The code of a branch that ended, where somebody wants it.

ghost use Rattle.std.specs.Prelude.{◌≡◌, true, Some, IfOk};
ghost use Rattle.and_model.specs.Trees as trees;
ghost use Rattle.and_model.specs.Trees.{QueryTree, IsWhole};
ghost use Rattle.and_cells.specs.Parts.{named};
ghost use Rattle.and_code.specs.Telling.{IsTold};
ghost use Rattle.and_branch.specs.Branches.{IsBranch, IsBranchOf};

use and_branch::Branch;
use and_cells::Naming;
use and_code::CodeSoFar;
use and_model::Code;
use and_program::Loaded;
use std::alloc::{AllocError, Global};
use std::snapshot::Snapshot;

/// A code, for contracts; and in fact, where it was made.
#[derive(Drop)]
pub struct Coded {
    pub named: Snapshot<Code>,
    pub code: Option<Code>,
}

/// The code of the tree for which a branch stands, for contracts. It takes a snapshot of any code.
pub fn seen_code<N: Naming>(branch: &Branch<N>, any: Snapshot<Code>) -> Snapshot<Code>
    requires { IsBranch N.program branch.now }
    ensures { (t : QueryTree N.program.program) → IsBranchOf N.program branch.now t → result.value ≡ trees.code t }
{
    let _ = branch;
    any
}

/// The code of a branch that ended, made where it is wanted. Its key was told so far. An error is want of memory.
pub fn code_if<N: Naming>(
    alloc: Global,
    loaded: &Loaded,
    branch: &Branch<N>,
    told: CodeSoFar,
    wanted: bool,
) -> Result<Coded, AllocError>
    requires program { N.program ≡ named loaded.now }
    requires branch { IsBranch N.program branch.now }
    requires told { IsTold N.program.program branch.now.reductions told branch.now.key }
    ensures named { IfOk result (λ coded. (t : QueryTree N.program.program) → IsBranchOf N.program branch.now t
        → IsWhole t → coded.named.value ≡ trees.code t) }
    ensures code { IfOk result (λ coded. wanted ≡ true → coded.code ≡ Some coded.named.value) }
{
    if wanted {
        let code = branch.code_of(alloc, loaded, told)?;
        return Ok(Coded {
            named: Snapshot::of(&code),
            code: Some(code),
        });
    }
    let named = seen_code(branch, Snapshot::of(branch.key()));
    Ok(Coded { named, code: None })
}
