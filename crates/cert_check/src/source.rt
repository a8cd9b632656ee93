// Of which input or axiom each member is an instance, and by which terms, as the origins tell. The terms are kept over the
// member's own variables, so that those of an instance are made from those of the member that it comes from, once each.
ghost use Rattle.std.specs.Prelude.{◌≡◌, ◌+◌, ◌<◌, All, IfOk, OnOk, length, map};
ghost use Rattle.inst_logic.specs.Clauses.{IsCanonical, order_of};
ghost use Rattle.term_bank.specs.Forest.{AreFormed, Extends, IsClauseOf, clause_at, tree_at};
ghost use Rattle.clause_form.specs.Conclusions.{AreVariables};
ghost use Rattle.cert_values.specs.Values.{base_of, entry_of};
ghost use Rattle.cert_values.specs.Wholes.{IsWholeBase, IsWholeClause, IsWholeTerm, KeepsBase};
ghost use Rattle.cert_inference.specs.Conclusions.{IsAtomOf};
ghost use Rattle.inst_logic.specs.Substitution.{subst};
ghost use Rattle.clause_form.specs.Walks.{listed};
ghost use Rattle.cert_check.specs.Sources.{AreConclusionTerms, AreFirstMembers, AreSources, AreUnifiedTerms, Conclude, IsSource, Unify};

use cert_inference::{PairRoom, Premises, literal_at, numbered_item};
use cert_values::{Base, Member, Origin};
use clause_form::{conclude, greatest_variable, terms_under};
use inst_logic::Memory;
use std::alloc::Global;
use term_bank::{Bank, IdClause, IdLiteral, TermIdList};
use unify_core::Side;

/// The number of an input or axiom, and a term for each of its variables, in the order in which these first occur.
#[derive(Drop)]
pub struct Source {
    pub input: usize,
    pub terms: TermIdList,
}

// The variables of the clause, in order.
fn own_variables(alloc: Global, bank: &mut Bank, c: &IdClause) -> Result<TermIdList, Memory>
    requires clause { IsClauseOf bank.old c.now }
    requires canonical { IsCanonical (clause_at bank.old c.now) }
    ensures variables { IfOk result (AreVariables bank.new (length (order_of (clause_at bank.old c.now)))) }
    ensures extends { Extends bank.old bank.new }
    ensures formed { AreFormed bank.old → AreFormed bank.new }
{
    let mut ids = TermIdList::new(alloc);
    let Some(last) = greatest_variable(bank, c) else {
        return Ok(ids);
    };
    for v in 0..=last {
        let id = bank.var(v)?;
        ids.push(id)?;
    }
    Ok(ids)
}

// The terms that the variables of the clause become under the most general unifier of its literal `l` and `m`, over the variables
// of its canonical instance.
fn unified_terms(
    bank: &mut Bank,
    room: &mut PairRoom,
    clause: &IdClause,
    l: IdLiteral,
    m: IdLiteral,
) -> Result<TermIdList, Memory>
    requires clause { IsWholeClause bank.old clause.now }
    requires canonical { IsCanonical (clause_at bank.old clause.now) }
    requires left { IsAtomOf bank.old l }
    requires right { IsAtomOf bank.old m }
    requires unify { Unify (tree_at bank.old l.atom) (tree_at bank.old m.atom) }
    ensures terms { IfOk result (AreUnifiedTerms bank.old bank.new clause.now l m) }
    ensures ids { IfOk result (All (IsWholeTerm bank.new)) }
    ensures extends { Extends bank.old bank.new }
    ensures formed { AreFormed bank.old → AreFormed bank.new }
{
    if !room.bindings.unify(bank, l.atom, m.atom)? {
        unreachable!();
    }
    let alloc = room.workspace.alloc();
    let conclusion = conclude(alloc, bank, &room.bindings, Side::Left, clause)?;
    Ok(conclusion.terms)
}

// The terms that the variables of the first member become in what it concludes.
fn conclusion_terms(
    bank: &mut Bank,
    room: &mut PairRoom,
    members: &[Member],
    premises: Premises,
) -> Result<TermIdList, Memory>
    requires members { All (λ m. IsWholeClause bank.old m.clause) members.now }
    requires canonical { All (λ m. IsCanonical (clause_at bank.old m.clause)) members.now }
    requires conclude { Conclude (map (entry_of bank.old) members.now) premises.from premises.place premises.partner premises.other }
    ensures terms { IfOk result (AreConclusionTerms bank.new (map (entry_of bank.old) members.now) premises.from premises.place premises.partner premises.other) }
    ensures ids { IfOk result (All (IsWholeTerm bank.new)) }
    ensures extends { Extends bank.old bank.new }
    ensures formed { AreFormed bank.old → AreFormed bank.new }
{
    let Some(member) = numbered_item(members, premises.from) else {
        unreachable!();
    };
    let Some(l) = literal_at(members, premises.from, premises.place) else {
        unreachable!();
    };
    let Some(m) = literal_at(members, premises.partner, premises.other) else {
        unreachable!();
    };
    unified_terms(bank, room, &member.clause, l, m)
}

// The source with the terms for the variables of its own terms.
pub fn source_under(
    alloc: Global,
    bank: &mut Bank,
    source: &Source,
    terms: &TermIdList,
) -> Result<Source, Memory>
    requires source { All (IsWholeTerm bank.old) source.now.terms }
    requires terms { All (IsWholeTerm bank.old) terms.now }
    ensures input { IfOk result (λ s. s.input ≡ source.now.input) }
    ensures trees { IfOk result (λ s. map (tree_at bank.new) s.terms ≡ map (subst (listed bank.old terms.now)) (map (tree_at bank.old) source.now.terms)) }
    ensures terms { IfOk result (λ s. All (IsWholeTerm bank.new) s.terms) }
    ensures extends { Extends bank.old bank.new }
    ensures formed { AreFormed bank.old → AreFormed bank.new }
{
    let under = terms_under(alloc, bank, source.terms.as_slice(), terms.as_slice())?;
    Ok(Source {
        input: source.input,
        terms: TermIdList::from(under),
    })
}

// The source of member `i`, counted from 0, from those of the members before it.
fn source_at(
    alloc: Global,
    base: &mut Base,
    room: &mut PairRoom,
    sources: &[Source],
    i: usize,
) -> Result<Source, Memory>
    requires whole { IsWholeBase base.old }
    requires members { AreFirstMembers (base_of base.old) }
    requires within { i < length base.old.members }
    requires sources { AreSources base.old.bank (base_of base.old) i sources.now }
    ensures kept { KeepsBase base.old base.new }
    ensures whole { OnOk result (IsWholeBase base.new) }
    ensures source { IfOk result (IsSource base.new.bank (base_of base.old) (i + 1)) }
{
    let member = &base.members.as_slice()[i];
    match member.origin {
        Origin::Input(input) => {
            let terms = own_variables(alloc, &mut base.bank, &member.clause)?;
            Ok(Source { input, terms })
        }
        Origin::Inst {
            from,
            place,
            partner,
            other,
        } => {
            let premises = Premises {
                from,
                place,
                partner,
                other,
            };
            let members = base.members.as_slice();
            let terms = conclusion_terms(&mut base.bank, room, members, premises)?;
            let Some(source) = numbered_item(sources, from) else {
                unreachable!();
            };
            source_under(alloc, &mut base.bank, source, &terms)
        }
        Origin::Lemma { .. } => unreachable!(),
    }
}

// The sources of the members, in order. `room` is room to work in.
fn sources_by(alloc: Global, base: &mut Base, room: &mut PairRoom) -> Result<Vec<Source>, Memory>
    requires whole { IsWholeBase base.old }
    requires members { AreFirstMembers (base_of base.old) }
    ensures kept { KeepsBase base.old base.new }
    ensures whole { OnOk result (IsWholeBase base.new) }
    ensures sources { IfOk result (λ v. AreSources base.new.bank (base_of base.old) (length base.old.members) v.items) }
{
    let mut sources = Vec::new(alloc);
    for i in 0..base.members.len() {
        let source = source_at(alloc, base, room, sources.as_slice(), i)?;
        sources.push(source)?;
    }
    Ok(sources)
}

// The sources of members that are right and no lemmas.
pub fn sources_of(alloc: Global, base: &mut Base) -> Result<Vec<Source>, Memory>
    requires whole { IsWholeBase base.old }
    requires members { AreFirstMembers (base_of base.old) }
    ensures kept { KeepsBase base.old base.new }
    ensures whole { OnOk result (IsWholeBase base.new) }
    ensures sources { IfOk result (λ v. AreSources base.new.bank (base_of base.old) (length base.old.members) v.items) }
{
    let mut room = PairRoom::new(alloc);
    sources_by(alloc, base, &mut room)
}
