// The decision of a chain. Its engine and checker are those of every problem: what is known of the answer beforehand is used
// to show that two of three arms are not reached, and for nothing else.
ghost use Rattle.std.specs.Prelude.{◌+◌, ◌<◌, ◌^◌, IfOk};
ghost use Rattle.szs_prove.specs.Decisions.{IsDecision, IsVerdict};
ghost use Rattle.szs_prove.specs.Chains.{HasNoModel};
ghost use Rattle.szs_prove.specs.Sizes.{AreRefutedIn, IsRefutedIn};

use crate::chain_problem::chain_problem;
use crate::decision::{Decision, decide};
use crate::sizes::{Size, size_of};
use inst_logic::{Memory, Problem};
use std::alloc::Global;

// The size of the refutation that was found. A saturation would make the clauses true, and no budget ends.
fn decided_size(_p: &Problem, decision: &Decision) -> Size
    requires decision { IsDecision _p.now 0 decision.now }
    requires verdict { IsVerdict decision.now }
    requires no_model { HasNoModel _p.now.clauses }
    ensures { AreRefutedIn _p.now.clauses result }
{
    match decision {
        Decision::Unsatisfiable(checked) => size_of(checked.cert()),
        Decision::Satisfiable(_) => unreachable!(),
        Decision::OutOfBudget { .. } => unreachable!(),
    }
}

/// Decides the chain of `n` constants, and gives the size of the refutation, which the checker has accepted. No budget is
/// wanted, since no function symbol has arguments.
pub fn stress(alloc: Global, n: usize) -> Result<Size, Memory>
    requires some { 0 < n }
    requires fits { n + 2 < 2 ^ 64 }
    ensures { IfOk result (IsRefutedIn n) }
{
    let problem = chain_problem(alloc, n)?;
    let decision = decide(alloc, &problem, 0)?;
    let size = decided_size(&problem, &decision);
    drop(decision);
    Ok(size)
}
