// Whether the variables of a clause are 0, 1, 2 by first occurrence. A list of ids stands for what is left of the walk, so no depth
// of term exhausts a stack. A tree whose variables have all been met is not walked, so each shared node is opened at most once.
ghost use Rattle.std.specs.Prelude.{◌≡◌, ◌+◌, ◌≤◌, ◌<◌, ◌∷◌, ◌++◌, length, map, true, IsTrue, IfOk, IfSome, OnOk, reverse};
ghost use Rattle.inst_logic.specs.Substitution.{clause_vars};
ghost use Rattle.term_bank.specs.Forest.{AreIds, IsClauseOf, clause_at};
ghost use Rattle.cert_items.specs.Orders.{in_order, ids_vars, ids_size};

use inst_logic::Memory;
use term_bank::{Bank, IdClause, IdLiteral, Root, TermId};

// Puts the ids on the list, the first one last.
fn push_ids(left: &mut Vec<TermId>, ids: &[TermId]) -> Result<(), Memory>
    ensures { OnOk result (reverse left.new.items ≡ ids.now ++ reverse left.old.items) }
{
    for i in (0..ids.len()).rev() {
        left.push(ids[i])?;
    }
    Ok(())
}

// Puts the atoms on the list, the first one last.
fn push_atoms(left: &mut Vec<TermId>, literals: &[IdLiteral]) -> Result<(), Memory>
    ensures { OnOk result (reverse left.new.items ≡ map (λ l. l.atom) literals.now ++ reverse left.old.items) }
{
    for i in (0..literals.len()).rev() {
        left.push(literals[i].atom)?;
    }
    Ok(())
}

// Counts the variable, or opens the application, where so many variables have been met.
fn open(
    bank: &Bank,
    left: &mut Vec<TermId>,
    met: usize,
    id: TermId,
) -> Result<Option<usize>, Memory>
    requires id { id < length bank.now.trees }
    requires within { AreIds bank.now (reverse left.old.items) }
    ensures order { IfOk result (λ r. IfSome r (λ n. in_order n (ids_vars bank.now (reverse left.new.items)) ≡ true → in_order met (ids_vars bank.now (id ∷ reverse left.old.items)) ≡ true)) }
    ensures within { OnOk result (AreIds bank.now (reverse left.new.items)) }
    ensures size { OnOk result (ids_size bank.now (reverse left.new.items) + 1 ≤ ids_size bank.now (id ∷ reverse left.old.items)) }
{
    match bank.root(id) {
        Root::Var(v) => {
            if v == met {
                Ok(met.checked_add(1))
            } else {
                Ok(None)
            }
        }
        Root::App(_, args) => {
            push_ids(left, args)?;
            Ok(Some(met))
        }
    }
}

// Goes on with the tree, where so many variables have been met, and tells how many are met then. `None` comes where a variable is
// out of order.
fn visit(
    bank: &Bank,
    left: &mut Vec<TermId>,
    met: usize,
    id: TermId,
) -> Result<Option<usize>, Memory>
    requires id { id < length bank.now.trees }
    requires within { AreIds bank.now (reverse left.old.items) }
    ensures order { IfOk result (λ r. IfSome r (λ n. in_order n (ids_vars bank.now (reverse left.new.items)) ≡ true → in_order met (ids_vars bank.now (id ∷ reverse left.old.items)) ≡ true)) }
    ensures within { OnOk result (AreIds bank.now (reverse left.new.items)) }
    ensures size { OnOk result (ids_size bank.now (reverse left.new.items) + 1 ≤ ids_size bank.now (id ∷ reverse left.old.items)) }
{
    match bank.greatest_variable(id) {
        None => Ok(Some(met)),
        Some(greatest) => {
            if greatest < met {
                Ok(Some(met))
            } else {
                open(bank, left, met, id)
            }
        }
    }
}

/// Whether each variable of the clause is below the number of different ones before it, or is that number. `left` is room to work
/// in.
pub fn is_ordered(bank: &Bank, left: &mut Vec<TermId>, c: &IdClause) -> Result<bool, Memory>
    requires { IsClauseOf bank.now c.now }
    ensures { IfOk result (λ r. IsTrue r → in_order 0 (clause_vars (clause_at bank.now c.now)) ≡ true) }
{
    left.clear();
    push_atoms(left, c.as_slice())?;
    let mut met = 0;
    while let Some(id) = left.pop() {
        match visit(bank, left, met, id)? {
            None => return Ok(false),
            Some(n) => met = n,
        }
    }
    Ok(true)
}
