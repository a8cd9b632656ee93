// What covers a clause, with its name: that it is a tautology, a member that it is a variant of, or a shorter member with terms under
// which its literals are among those of the clause.
ghost use Rattle.std.specs.Prelude.{◌≡◌, ◌+◌, ◌<◌, map, length, All, IfNone, IfOk, IfSome};
ghost use Rattle.inst_logic.specs.Clauses.{IsCanonical, Subsumes, instance};
ghost use Rattle.inst_logic.specs.Unifiers.{Sided};
ghost use Rattle.inst_calculus.specs.Saturation.{IsCovered};
ghost use Rattle.term_bank.specs.Forest.{AreFormed, Extends, IsClauseOf, clause_at};
ghost use Rattle.unify_core.specs.Chains.{AreBindings};
ghost use Rattle.unify_core.specs.Sides.{IsResolvedBy, of_side};
ghost use Rattle.unify_core.specs.Terms.{AreTerms};
ghost use Rattle.cert_values.specs.declared.certificate.By.TheVariants.{Variant};
ghost use Rattle.cert_values.specs.Wholes.{IsWholeClause};
ghost use Rattle.cert_check.specs.Covers.{IsCoveredIn};
ghost use Rattle.cert_check.specs.Grounds.{AreCanonicalMembers};
ghost use Rattle.cert_index.specs.Lookups.{IsLookup};
ghost use Rattle.cert_check.specs.Names.{IsCoverBy, IsPartOf, NamesInstance};
ghost use Rattle.cert_index.specs.Places.{IsPlaceOf};

use cert_index::{Lookup, shorter_place};
use cert_inference::Instance;
use cert_names::part_terms;
use cert_values::{By, Member};
use clause_form::{Workspace, long_tautology};
use inst_logic::Memory;
use std::alloc::Global;
use term_bank::{Bank, IdClause};

/// A clause, and what covers it.
#[derive(Drop)]
pub struct Named {
    pub clause: IdClause,
    pub by: By,
}

// The member at the place, counted from 0, with the terms by which it subsumes the clause.
pub fn part_of(
    alloc: Global,
    bank: &mut Bank,
    members: &[Member],
    k: usize,
    c: &IdClause,
) -> Result<By, Memory>
    requires members { All (λ m. IsWholeClause bank.old m.clause) members.now }
    requires members_canonical { AreCanonicalMembers bank.old members.now }
    requires clause { IsWholeClause bank.old c.now }
    requires place { IsPlaceOf (λ m. Subsumes (clause_at bank.old m.clause) (clause_at bank.old c.now)) members.now k }
    ensures part { IfOk result (IsPartOf bank.old bank.new members.now k c.now) }
    ensures extends { Extends bank.old bank.new }
    ensures formed { AreFormed bank.old → AreFormed bank.new }
{
    match part_terms(alloc, bank, &members[k].clause, c)? {
        Some(terms) => Ok(By::Part {
            member: k + 1,
            terms,
        }),
        None => unreachable!(),
    }
}

// The member at the place, counted from 0, as one that the clause is a variant of.
fn variant_of(_members: &[Member], k: usize) -> By
    requires { k < length _members.now }
    ensures { result ≡ Variant (k + 1) }
{
    By::Variant(k + 1)
}

// What covers the clause, an instance of one with this many literals. A variant is looked up.
fn find_by(
    alloc: Global,
    bank: &mut Bank,
    members: &[Member],
    lookup: &Lookup,
    len: usize,
    c: &IdClause,
) -> Result<Option<By>, Memory>
    requires members { All (λ m. IsWholeClause bank.old m.clause) members.now }
    requires members_canonical { AreCanonicalMembers bank.old members.now }
    requires lookup { IsLookup bank.old members.now lookup.now }
    requires clause { IsWholeClause bank.old c.now }
    requires canonical { IsCanonical (clause_at bank.old c.now) }
    ensures some { IfOk result (λ o. IfSome o (IsCoverBy bank.old bank.new members.now len c.now)) }
    ensures none { IfOk result (λ o. IfNone o (¬ (IsCoveredIn bank.old members.now len c.now))) }
    ensures extends { Extends bank.old bank.new }
    ensures formed { AreFormed bank.old → AreFormed bank.new }
{
    bank.distinct();
    if long_tautology(alloc, c)? {
        return Ok(Some(By::Tautology));
    }
    if let Some(k) = lookup.place_of(c) {
        return Ok(Some(variant_of(members, k)));
    }
    match shorter_place(alloc, bank, members, lookup, len, c)? {
        None => Ok(None),
        Some(k) => {
            let by = part_of(alloc, bank, members, k, c)?;
            Ok(Some(by))
        }
    }
}

// The instance, and what covers it.
pub fn named_instance(
    workspace: &mut Workspace,
    bank: &mut Bank,
    members: &[Member],
    lookup: &Lookup,
    of: &Instance<'_>,
) -> Result<Option<Named>, Memory>
    requires members { All (λ m. IsWholeClause bank.old m.clause) members.now }
    requires members_canonical { AreCanonicalMembers bank.old members.now }
    requires lookup { IsLookup bank.old members.now lookup.now }
    requires clause { IsWholeClause bank.old of.now.clause.now }
    requires canonical { IsCanonical (clause_at bank.old of.now.clause.now) }
    requires bindings { AreBindings bank.old of.now.bindings.now.entries }
    requires terms { AreTerms bank.old of.now.bindings.now.entries }
    requires formed { AreFormed bank.old }
    ensures some { IfOk result (λ o. IfSome o (NamesInstance bank.old bank.new of.now.bindings.now.entries of.now.side members.now of.now.clause.now)) }
    ensures covered { IfOk result (λ o. IfSome o (λ _. (s : Sided) → IsResolvedBy bank.old of.now.bindings.now.entries s → IsCovered (map (λ m. clause_at bank.old m.clause) members.now) (clause_at bank.old of.now.clause.now) (instance (of_side s of.now.side) (clause_at bank.old of.now.clause.now)))) }
    ensures none { IfOk result (λ o. IfNone o ((s : Sided) → IsResolvedBy bank.old of.now.bindings.now.entries s → ¬ (IsCovered (map (λ m. clause_at bank.old m.clause) members.now) (clause_at bank.old of.now.clause.now) (instance (of_side s of.now.side) (clause_at bank.old of.now.clause.now))))) }
    ensures extends { Extends bank.old bank.new }
    ensures formed { AreFormed bank.new }
{
    let clause = workspace.conclude_clause(bank, of.bindings, of.side, of.clause)?;
    let alloc = workspace.alloc();
    match find_by(alloc, bank, members, lookup, of.clause.len(), &clause)? {
        None => Ok(None),
        Some(by) => Ok(Some(Named { clause, by })),
    }
}
