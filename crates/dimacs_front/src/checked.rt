// Derivations that the checker has accepted. Nothing else makes one, so the text of an answer can't be made without the checker.
ghost use Rattle.std.specs.Prelude.{◌≡◌, ◌↔◌, IfOk, IsTrue, [], length};
ghost use Rattle.prop_logic.specs.Literal.{AllAtomsBelow, IsShownDerivation, StepsBelow};
ghost use Rattle.prop_logic.specs.Solving.{EndsWith};
ghost use Rattle.dimacs_front.specs.Checked.{IsChecked};

use crate::cnf::Cnf;
use inst_logic::Memory;
use proof_log::Checker;
use prop_logic::{Derivation, Step};
use std::alloc::Global;
use std::marker::Model;

/// A derivation of the empty clause from these clauses, each step of which is shown.
#[derive(Drop)]
pub(crate) struct CheckedDerivation<'a> {
    cnf: &'a Cnf,
    derivation: Derivation,
}

impl<'a> Model for CheckedDerivation<'a> {
    ghost use Rattle.std.specs.Prelude.{[]};
    ghost use Rattle.prop_logic.specs.Literal.{IsShownDerivation};
    ghost use Rattle.prop_logic.specs.Solving.{EndsWith};
    ghost use Rattle.dimacs_front.specs.Checked.{Checked};

    ghost Value = { Checked };

    ghost view = { λ c. record { clauses = c.cnf.now.clauses; steps = c.derivation } };

    ghost invariant = { λ c. IsShownDerivation c.cnf.now.clauses c.derivation × EndsWith c.derivation [] };
}

impl<'a> CheckedDerivation<'a> {
    /// The number of the clauses.
    pub(crate) fn given_count(&self) -> usize
        ensures { result ≡ length self.now.clauses }
    {
        self.cnf.clauses.len()
    }

    /// The steps.
    pub(crate) fn steps(&self) -> &[Step]
        ensures is { result.now ≡ self.now.steps }
        ensures shown { IsShownDerivation self.now.clauses self.now.steps }
        ensures last { EndsWith self.now.steps [] }
    {
        self.derivation.as_slice()
    }
}

// Whether each step of the derivation is shown and the last is empty, by the checker.
fn is_accepted(alloc: Global, cnf: &Cnf, derivation: &Derivation) -> Result<bool, Memory>
    requires below { AllAtomsBelow cnf.now.vars cnf.now.clauses }
    requires steps { StepsBelow cnf.now.vars derivation.now }
    ensures { IfOk result (λ yes. IsTrue yes ↔ (IsShownDerivation cnf.now.clauses derivation.now × EndsWith derivation.now [])) }
{
    let mut checker = Checker::with_room(alloc, cnf.vars, &cnf.clauses, derivation)?;
    Ok(checker.refutes(&cnf.clauses, derivation).is_ok())
}

/// The derivation where the checker accepts it, and else none.
pub(crate) fn checked_derivation<'a>(
    alloc: Global,
    cnf: &'a Cnf,
    derivation: Derivation,
) -> Result<Option<CheckedDerivation<'a>>, Memory>
    requires below { AllAtomsBelow cnf.now.vars cnf.now.clauses }
    requires steps { StepsBelow cnf.now.vars derivation }
    ensures { IfOk result (IsChecked cnf.now.clauses derivation) }
{
    if is_accepted(alloc, cnf, &derivation)? {
        return Ok(Some(CheckedDerivation { cnf, derivation }));
    }
    Ok(None)
}
