// The check of the constant, and whether the ground clauses are the members' under it. Each is compared by its ids as it comes,
// and only an instance of a clause with variables is built.
ghost use Rattle.std.specs.Prelude.{◌≡◌, ◌↔◌, ◌<◌, ◌≤◌, All, IfErr, IfOk, IsTrue, OnOk, length, map};
ghost use Rattle.inst_logic.specs.Clauses.{IsCanonical, instance, order_of};
ghost use Rattle.inst_logic.specs.Derivations.{at_number};
ghost use Rattle.inst_logic.specs.WellFormed.{IsTerm, is_constant};
ghost use Rattle.inst_calculus.specs.Abstraction.{abstraction};
ghost use Rattle.inst_calculus.specs.Entries.{entry_clauses};
ghost use Rattle.cert_values.specs.Values.{base_of};
ghost use Rattle.cert_values.specs.Wholes.{IsWholeBase, KeepsBase};
ghost use Rattle.term_bank.specs.Forest.{AreFormed, Extends, IsClauseAt, IsClauseOf, clause_at, tree_at};
ghost use Rattle.cert_check.specs.Answers.{IsCheckCause};
ghost use Rattle.cert_check.specs.Firsts.{IsFirstWrongOf};
ghost use Rattle.cert_check.specs.Grounds.{AreCanonicalMembers, IsGroundAt};
ghost use Rattle.cert_check.specs.Stages.{ConstantPasses};

use crate::error::CheckError;
use cert_format::Complaint;
use cert_inference::same_trees;
use cert_values::Base;
use clause_form::{greatest_variable, under};
use inst_logic::{Kind, Memory, Sym};
use std::alloc::Global;
use term_bank::{Bank, IdClause, IdClauseList, TermId, TermIdList};

fn is_constant(s: &Sym) -> bool
    ensures { result ≡ is_constant s.now }
{
    match s.kind {
        Kind::Function => s.arity == 0,
        Kind::Predicate | Kind::Equality => false,
    }
}

// The complaint about the constant, if there is one.
pub fn check_constant(bot: &Sym) -> Result<(), CheckError>
    ensures constant { OnOk result (IsTrue (is_constant bot.now)) }
    ensures complaint { IfErr result (IsCheckCause (ConstantPasses bot.now)) }
{
    if !is_constant(bot) {
        return Err(CheckError::Complaint(Complaint::Bot));
    }
    Ok(())
}

// The id once for each variable of the clause.
pub fn id_for_each_variable(
    alloc: Global,
    bank: &Bank,
    term: TermId,
    c: &IdClause,
) -> Result<TermIdList, Memory>
    requires clause { IsClauseOf bank.now c.now }
    requires canonical { IsCanonical (clause_at bank.now c.now) }
    ensures enough { IfOk result (λ ids. length (order_of (clause_at bank.now c.now)) ≤ length ids) }
    ensures same { IfOk result (All (λ id. id ≡ term)) }
{
    let mut ids = TermIdList::new(alloc);
    let Some(last) = greatest_variable(bank, c) else {
        return Ok(ids);
    };
    for _ in 0..=last {
        ids.push(term)?;
    }
    Ok(ids)
}

// The clause with the term in the place of every variable, built anew.
fn built_under(
    alloc: Global,
    bank: &mut Bank,
    term: TermId,
    c: &IdClause,
) -> Result<IdClause, Memory>
    requires within { term < length bank.old.trees }
    requires is_term { IsTerm (tree_at bank.old term) }
    requires clause { IsClauseOf bank.old c.now }
    requires canonical { IsCanonical (clause_at bank.old c.now) }
    ensures instance { IfOk result (λ d. IsClauseAt bank.new d (instance (λ _. tree_at bank.old term) (clause_at bank.old c.now))) }
    ensures extends { Extends bank.old bank.new }
    ensures formed { AreFormed bank.old → AreFormed bank.new }
{
    let terms = id_for_each_variable(alloc, bank, term, c)?;
    under(alloc, bank, c, &terms)
}

// Whether the ground clause is that instance of the clause, which is built.
fn is_built_under(
    alloc: Global,
    bank: &mut Bank,
    term: TermId,
    c: &IdClause,
    ground: &IdClause,
) -> Result<bool, Memory>
    requires within { term < length bank.old.trees }
    requires is_term { IsTerm (tree_at bank.old term) }
    requires clause { IsClauseOf bank.old c.now }
    requires canonical { IsCanonical (clause_at bank.old c.now) }
    requires ground { IsClauseOf bank.old ground.now }
    ensures instance { IfOk result (λ r. IsTrue r ↔ (clause_at bank.old ground.now ≡ instance (λ _. tree_at bank.old term) (clause_at bank.old c.now))) }
    ensures extends { Extends bank.old bank.new }
    ensures formed { AreFormed bank.old → AreFormed bank.new }
{
    let built = built_under(alloc, bank, term, c)?;
    Ok(same_trees(bank, ground, &built))
}

// Whether the ground clause is the instance. A clause without variables, as most members of a refutation are, is its own.
fn is_under(
    alloc: Global,
    bank: &mut Bank,
    term: TermId,
    c: &IdClause,
    ground: &IdClause,
) -> Result<bool, Memory>
    requires within { term < length bank.old.trees }
    requires is_term { IsTerm (tree_at bank.old term) }
    requires clause { IsClauseOf bank.old c.now }
    requires canonical { IsCanonical (clause_at bank.old c.now) }
    requires ground { IsClauseOf bank.old ground.now }
    ensures instance { IfOk result (λ r. IsTrue r ↔ (clause_at bank.old ground.now ≡ instance (λ _. tree_at bank.old term) (clause_at bank.old c.now))) }
    ensures extends { Extends bank.old bank.new }
    ensures formed { AreFormed bank.old → AreFormed bank.new }
{
    match greatest_variable(bank, c) {
        None => Ok(same_trees(bank, ground, c)),
        Some(_) => is_built_under(alloc, bank, term, c, ground),
    }
}

// Whether there are a ground clause and a member at the place, counted from 0, and the one is the other under the term; or
// neither is there.
fn is_ground_at(
    alloc: Global,
    base: &mut Base,
    term: TermId,
    grounds: &IdClauseList,
    i: usize,
) -> Result<bool, Memory>
    requires within { term < length base.old.bank.trees }
    requires is_term { IsTerm (tree_at base.old.bank term) }
    requires whole { IsWholeBase base.old }
    requires canonical { AreCanonicalMembers base.old.bank base.old.members }
    requires grounds { All (IsClauseOf base.old.bank) grounds.now }
    ensures right { IfOk result (λ r. IsTrue r ↔ IsGroundAt base.old.bank term base.old.members grounds.now i) }
    ensures kept { KeepsBase base.old base.new }
    ensures whole { IsWholeBase base.new }
{
    match (grounds.get(i), base.members.get(i)) {
        (Some(ground), Some(member)) => {
            is_under(alloc, &mut base.bank, term, &member.clause, ground)
        }
        (None, None) => Ok(true),
        _ => Ok(false),
    }
}

// The number of the first ground clause that is not its member's clause with the constant in the place of every variable.
pub fn first_wrong_ground(
    alloc: Global,
    base: &mut Base,
    bot: &Sym,
    grounds: &IdClauseList,
) -> Result<Option<usize>, Memory>
    requires whole { IsWholeBase base.old }
    requires bot { IsTrue (is_constant bot.now) }
    requires canonical { AreCanonicalMembers base.old.bank base.old.members }
    requires grounds { All (IsClauseOf base.old.bank) grounds.now }
    ensures first { IfOk result (IsFirstWrongOf (λ n. at_number (map (clause_at base.old.bank) grounds.now) n ≡ at_number (map (abstraction bot.now) (entry_clauses (base_of base.old).members)) n)) }
    ensures kept { KeepsBase base.old base.new }
    ensures whole { IsWholeBase base.new }
{
    let constant = base.bank.app(bot, &[])?;
    for i in 0..base.members.len().max(grounds.len()) {
        if !is_ground_at(alloc, base, constant, grounds, i)? {
            return Ok(Some(i + 1));
        }
    }
    Ok(None)
}
