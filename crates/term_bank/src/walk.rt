// The walk that interns a term: a list of steps stands for what is left of it, so no depth of term exhausts a stack.
ghost use Rattle.std.specs.Prelude.{◌≡◌, ◌+◌, ◌*◌, ◌≤◌, ◌<◌, List, [], ◌∷◌, ◌++◌, length, false, map, IfOk, OnOk, IsTrue};
ghost use Rattle.std.specs.List.{list_all};
ghost use Rattle.inst_logic.specs.Tree.{Tree, of_list};
ghost use Rattle.inst_logic.specs.View.{tree};
ghost use Rattle.inst_logic.specs.Measure.{tree_size, trees_size};
ghost use Rattle.term_bank.specs.Forest.{tree_at, IsAt, AreIds, Extends, AreFormed, Grows, is_formed};
ghost use Rattle.term_bank.specs.Steps.{applied, all_done, steps_size};

use crate::bank::Bank;
use crate::id::TermId;
use inst_logic::{Memory, Sym, Term};
use std::alloc::Global;

#[derive(Clone, Copy)]
pub enum Step<'a> {
    // The term is interned.
    Visit(&'a Term),
    // The symbol is applied to so many of the last ids.
    Apply(&'a Sym, usize),
}

// Steps that visit the terms from left to right.
pub fn push_terms<'a>(steps: &mut Vec<Step<'a>>, terms: &'a [Term]) -> Result<(), Memory>
    ensures done { OnOk result ((ts : List Tree) → all_done steps.new.items ts ≡ all_done steps.old.items (ts ++ map tree terms.now)) }
    ensures size { OnOk result (steps_size steps.new.items ≡ steps_size steps.old.items + 2 * trees_size (of_list (map tree terms.now))) }
{
    for i in (0..terms.len()).rev() {
        steps.push(Step::Visit(&terms[i]))?;
    }
    Ok(())
}

fn visit<'a>(
    bank: &mut Bank,
    steps: &mut Vec<Step<'a>>,
    ids: &mut Vec<TermId>,
    t: &'a Term,
) -> Result<(), Memory>
    requires { AreIds bank.old ids.old.items }
    ensures done { OnOk result (all_done steps.new.items (map (tree_at bank.new) ids.new.items) ≡ all_done steps.old.items (map (tree_at bank.old) ids.old.items ++ tree t.now ∷ [])) }
    ensures within { OnOk result (AreIds bank.new ids.new.items) }
    ensures grows { Grows bank.old bank.new }
    ensures unspent { OnOk result (bank.old.spent ≡ false → bank.new.spent ≡ false) }
    ensures size { OnOk result (steps_size steps.new.items + 1 ≤ steps_size steps.old.items + 2 * tree_size (tree t.now)) }
{
    match t {
        Term::Var(v) => {
            let id = bank.var(*v)?;
            ids.push(id)?;
        }
        Term::App(sym, args) => {
            steps.push(Step::Apply(sym, args.len()))?;
            push_terms(steps, args.as_slice())?;
        }
    }
    Ok(())
}

fn apply(bank: &mut Bank, ids: &mut Vec<TermId>, sym: &Sym, count: usize) -> Result<(), Memory>
    requires { AreIds bank.old ids.old.items }
    ensures done { OnOk result (map (tree_at bank.new) ids.new.items ≡ applied sym.now count (map (tree_at bank.old) ids.old.items)) }
    ensures within { OnOk result (AreIds bank.new ids.new.items) }
    ensures extends { Extends bank.old bank.new }
    ensures formed { AreFormed bank.old → IsTrue (list_all is_formed (applied sym.now count (map (tree_at bank.old) ids.old.items))) → AreFormed bank.new }
    ensures unspent { OnOk result (bank.new.spent ≡ false) }
{
    let start = ids.len().saturating_sub(count);
    let id = bank.app(sym, &ids[start..])?;
    ids.truncate(start);
    ids.push(id)?;
    Ok(())
}

// The id of the one tree that the steps make.
pub fn run_steps(
    alloc: Global,
    bank: &mut Bank,
    steps: &mut Vec<Step<'_>>,
) -> Result<TermId, Memory>
    requires one { length (all_done steps.old.items []) ≡ 1 }
    requires unspent { bank.old.spent ≡ false }
    ensures at { IfOk result (λ id. (id < length bank.new.trees) × (all_done steps.old.items [] ≡ tree_at bank.new id ∷ [])) }
    ensures extends { Extends bank.old bank.new }
    ensures formed { AreFormed bank.old → IsTrue (list_all is_formed (all_done steps.old.items [])) → AreFormed bank.new }
    ensures unspent { OnOk result (bank.new.spent ≡ false) }
    ensures empty { OnOk result (steps.new.items ≡ []) }
{
    let mut ids: Vec<TermId> = Vec::new(alloc);
    while let Some(step) = steps.pop() {
        match step {
            Step::Visit(t) => visit(bank, steps, &mut ids, t)?,
            Step::Apply(sym, count) => apply(bank, &mut ids, sym, count)?,
        }
    }
    match ids.pop() {
        Some(id) => Ok(id),
        None => unreachable!(),
    }
}
