// Complementary literals of a clause that may be long: a set of the literals tells in one pass whether there are any.
ghost use Rattle.std.specs.Prelude.{◌≡◌, ◌↔◌, IsTrue, IfOk, OnOk};
ghost use Rattle.std.specs.List.{list_any};
ghost use Rattle.inst_logic.specs.Lists.{distinct, with_item};
ghost use Rattle.inst_logic.specs.Signed.{IsTautology, complement};
ghost use Rattle.term_bank.specs.Forest.{Forest, AreDistinct, IsClauseOf, clause_at};
ghost use Rattle.clause_form.specs.Literals.{id_eq};

use crate::compare::tautology;
use indexmap::IndexSet;
use inst_logic::Memory;
use std::alloc::Global;
use term_bank::{IdClause, IdLiteral};

// A clause with at most so many literals is compared literal by literal: for it a set would cost more than it saves.
const SHORT: usize = 32;

// One more literal, where it is not there.
fn add(all: &mut IndexSet<IdLiteral>, literal: IdLiteral) -> Result<(), Memory>
    ensures { OnOk result (all.new.keys ≡ with_item id_eq all.old.keys literal) }
{
    all.insert(literal)?;
    Ok(())
}

// The literals, each once.
fn set_of(alloc: Global, literals: &[IdLiteral]) -> Result<IndexSet<IdLiteral>, Memory>
    ensures { IfOk result (λ all. all.keys ≡ distinct id_eq literals.now) }
{
    let mut all = IndexSet::with_capacity(alloc, literals.len())?;
    for l in literals {
        add(&mut all, *l)?;
    }
    Ok(all)
}

// Whether the complement of the literal is in the set.
fn meets(all: &IndexSet<IdLiteral>, l: &IdLiteral) -> bool
    ensures { result ≡ list_any (id_eq (complement l.now)) all.now.keys }
{
    let other = IdLiteral {
        positive: !l.positive,
        atom: l.atom,
    };
    all.contains(&other)
}

// Whether some literal's complement is in the set of them all.
fn some_meets(all: &IndexSet<IdLiteral>, c: &IdClause) -> bool
    requires { all.now.keys ≡ distinct id_eq c.now }
    ensures ids { IsTrue result ↔ IsTautology c.now }
    ensures trees { (f : Forest) → AreDistinct f.trees → IsClauseOf f c.now → IsTrue result ↔ IsTautology (clause_at f c.now) }
{
    c.as_slice().iter().any(|l| meets(all, l))
}

/// What `tautology` tells, in time linear in the number of literals. A clause of more than 32 literals takes memory for a set of
/// them.
pub fn long_tautology(alloc: Global, c: &IdClause) -> Result<bool, Memory>
    ensures ids { IfOk result (λ r. IsTrue r ↔ IsTautology c.now) }
    ensures trees { IfOk result (λ r. (f : Forest) → AreDistinct f.trees → IsClauseOf f c.now → IsTrue r ↔ IsTautology (clause_at f c.now)) }
{
    if c.len() <= SHORT {
        return Ok(tautology(c));
    }
    let all = set_of(alloc, c.as_slice())?;
    Ok(some_meets(&all, c))
}
