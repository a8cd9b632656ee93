// How the entries of a run were made, found anew from their origins: a run keeps no terms, and only a refutation wants them.
ghost use Rattle.std.specs.Prelude.{◌≡◌, ◌<◌, ◌≤◌, ℕ, Some, length, map, IsTrue, IfOk, OnOk};
ghost use Rattle.inst_logic.specs.declared.symbol.Sym.{Sym};
ghost use Rattle.inst_logic.specs.Tree.{app, none};
ghost use Rattle.inst_logic.specs.Clauses.{TreeClause, IsCanonical};
ghost use Rattle.inst_logic.specs.Derivations.{at_number};
ghost use Rattle.inst_logic.specs.WellFormed.{is_constant};
ghost use Rattle.inst_calculus.specs.Conclusions.{IsConclusion, IsPartOfConclusion};
ghost use Rattle.inst_calculus.specs.Parts.{chosen};
ghost use Rattle.inst_calculus.specs.Unrolling.{conclusion_terms, part_terms, implied_by, instance_of, TellsHow};
ghost use Rattle.clause_form.specs.Conclusions.{AreTermIds};
ghost use Rattle.global_subs.specs.Unrolls.{how_at, terms_of};
ghost use Rattle.cert_values.specs.Values.{origin_of};
ghost use Rattle.cert_values.specs.Wholes.{IsWholeClause};
ghost use Rattle.term_bank.specs.Forest.{AreFormed, AreIds, Extends, IsTermIn, clause_at, tree_at};
ghost use Rattle.instgen_run.specs.Clauses.{AreEntries, Item, entries_in};
ghost use Rattle.instgen_run.specs.Deciding.{IsSomeConclusion, held_value};
ghost use Rattle.instgen_loop.specs.Records.{AreConcluded, AreRecordsOf, IsConcluded, IsRecord};

use crate::part_terms::{Part, part_terms};
use crate::start::copied_clause;
use cert_values::Origin;
use clause_form::{Conclusion, conclude};
use global_subs::{How, Lemma, Made, MadeList};
use inst_logic::{Memory, Sym};
use instgen_run::{Origins, Premises, literal_at, origin_of};
use std::alloc::Global;
use term_bank::{Bank, IdClause, TermId};
use unify_core::{Bindings, Side};

// Bindings, and the constant that stands for the variables that a part of a conclusion lacks.
#[derive(Drop)]
struct Instantiation {
    bindings: Bindings,
    constant: TermId,
}

// The clause of entry `n`.
fn clause_of(clauses: &Origins, n: usize) -> &IdClause
    requires { (0 < n) × (n ≤ length clauses.now.entries) }
    ensures { (item : Item) × (at_number clauses.now.entries n ≡ Some item) × (item.0 ≡ result.now) }
{
    match clauses.get_index(n - 1) {
        Some((clause, _)) => clause,
        None => unreachable!(),
    }
}

// What the two entries conclude, with what the variables of entry `at.from` become.
fn conclusion_at(
    alloc: Global,
    bank: &mut Bank,
    bindings: &mut Bindings,
    clauses: &Origins,
    at: Premises,
) -> Result<Conclusion, Memory>
    requires entries { AreEntries bank.old clauses.now.entries }
    requires concluded { IsSomeConclusion (entries_in bank.old clauses.now.entries) (held_value at) }
    ensures extends { Extends bank.old bank.new }
    ensures formed { OnOk result (AreFormed bank.new) }
    ensures ids { IfOk result (λ d. AreIds bank.new d.terms) }
    ensures plain { IfOk result (λ d. AreTermIds bank.new d.terms) }
    ensures terms { IfOk result (λ d. (c : TreeClause) (k : IsConclusion (entries_in bank.old clauses.now.entries) at.from at.place at.partner at.other c)
        → map (tree_at bank.new) d.terms ≡ conclusion_terms k.unifier.left k.entry.clause) }
    ensures whole { IfOk result (λ d. IsWholeClause bank.new d.clause) }
    ensures canonical { IfOk result (λ d. IsCanonical (clause_at bank.new d.clause)) }
    ensures clause { IfOk result (λ d. (c : TreeClause) → IsConclusion (entries_in bank.old clauses.now.entries) at.from at.place at.partner at.other c → clause_at bank.new d.clause ≡ c) }
{
    let first = clause_of(clauses, at.from as usize);
    let second = clause_of(clauses, at.partner as usize);
    let a = literal_at(first.as_slice(), at.place as usize);
    let b = literal_at(second.as_slice(), at.other as usize);
    if !bindings.unify(bank, a.atom, b.atom)? {
        unreachable!();
    }
    let conclusion = conclude(alloc, bank, bindings, Side::Left, first)?;
    Ok(conclusion)
}

// How a conclusion was made.
fn how_whole(
    alloc: Global,
    bank: &mut Bank,
    bindings: &mut Bindings,
    clauses: &Origins,
    at: Premises,
) -> Result<How, Memory>
    requires entries { AreEntries bank.old clauses.now.entries }
    requires concluded { IsSomeConclusion (entries_in bank.old clauses.now.entries) (held_value at) }
    ensures extends { Extends bank.old bank.new }
    ensures formed { OnOk result (AreFormed bank.new) }
    ensures ids { IfOk result (λ h. AreIds bank.new (terms_of h)) }
    ensures plain { IfOk result (λ h. AreTermIds bank.new (terms_of h)) }
    ensures told { IfOk result (λ h. (c : TreeClause) (k : IsConclusion (entries_in bank.old clauses.now.entries) at.from at.place at.partner at.other c)
        → how_at bank.new h ≡ instance_of at.from (conclusion_terms k.unifier.left k.entry.clause)) }
{
    let conclusion = conclusion_at(alloc, bank, bindings, clauses, at)?;
    Ok(How::From {
        from: at.from as usize,
        terms: conclusion.terms,
    })
}

// How the part of a conclusion at the kept places was made of the premises.
fn how_part(
    alloc: Global,
    bank: &mut Bank,
    room: &mut Instantiation,
    clauses: &Origins,
    at: Premises,
    lemma: Lemma,
) -> Result<How, Memory>
    requires entries { AreEntries bank.old clauses.now.entries }
    requires part { (c : TreeClause) × IsPartOfConclusion (entries_in bank.old clauses.now.entries) at.from at.place at.partner at.other lemma.keep c }
    requires constant { IsTermIn bank.old room.old.constant }
    ensures constant { room.new.constant ≡ room.old.constant }
    ensures extends { Extends bank.old bank.new }
    ensures formed { OnOk result (AreFormed bank.new) }
    ensures ids { IfOk result (λ h. AreIds bank.new (terms_of h)) }
    ensures plain { IfOk result (λ h. AreTermIds bank.new (terms_of h)) }
    ensures told { IfOk result (λ h. (bot : Sym) → tree_at bank.old room.old.constant ≡ app bot none
        → (c : TreeClause) (p : IsPartOfConclusion (entries_in bank.old clauses.now.entries) at.from at.place at.partner at.other lemma.keep c)
        → how_at bank.new h ≡ implied_by lemma.premises (part_terms bot p.whole (chosen p.whole lemma.keep))) }
{
    let conclusion = conclusion_at(alloc, bank, &mut room.bindings, clauses, at)?;
    let part = Part {
        whole: &conclusion.clause,
        keep: &lemma.keep,
    };
    let terms = part_terms(alloc, bank, &part, room.constant)?;
    Ok(How::Lemma {
        terms,
        premises: lemma.premises,
    })
}

// How an entry of this origin was made.
fn how_of(
    alloc: Global,
    bank: &mut Bank,
    room: &mut Instantiation,
    clauses: &Origins,
    origin: Origin,
) -> Result<How, Memory>
    requires entries { AreEntries bank.old clauses.now.entries }
    requires concluded { (c : TreeClause) × IsConcluded (entries_in bank.old clauses.now.entries) origin c }
    requires constant { IsTermIn bank.old room.old.constant }
    ensures constant { room.new.constant ≡ room.old.constant }
    ensures extends { Extends bank.old bank.new }
    ensures formed { OnOk result (AreFormed bank.new) }
    ensures ids { IfOk result (λ h. AreIds bank.new (terms_of h)) }
    ensures plain { IfOk result (λ h. AreTermIds bank.new (terms_of h)) }
    ensures told { IfOk result (λ h. (bot : Sym) → tree_at bank.old room.old.constant ≡ app bot none → (c : TreeClause) → IsConcluded (entries_in bank.old clauses.now.entries) origin c
        → TellsHow bot (entries_in bank.old clauses.now.entries) (origin_of origin) c (how_at bank.new h)) }
{
    match origin {
        Origin::Input(k) => Ok(How::Given(k)),
        Origin::Inst {
            from,
            place,
            partner,
            other,
        } => {
            let at = Premises::new(from, place, partner, other)?;
            how_whole(alloc, bank, &mut room.bindings, clauses, at)
        }
        Origin::Lemma {
            from,
            place,
            partner,
            other,
            keep,
            premises,
        } => {
            let at = Premises::new(from, place, partner, other)?;
            how_part(alloc, bank, room, clauses, at, Lemma { keep, premises })
        }
    }
}

// Entry `n` with how it was made.
fn record_of(
    alloc: Global,
    bank: &mut Bank,
    room: &mut Instantiation,
    clauses: &Origins,
    n: usize,
) -> Result<Made, Memory>
    requires entries { AreEntries bank.old clauses.now.entries }
    requires concluded { AreConcluded bank.old clauses.now.entries }
    requires number { (0 < n) × (n ≤ length clauses.now.entries) }
    requires constant { IsTermIn bank.old room.old.constant }
    ensures constant { room.new.constant ≡ room.old.constant }
    ensures extends { Extends bank.old bank.new }
    ensures formed { OnOk result (AreFormed bank.new) }
    ensures made { IfOk result (λ m. (item : Item) × (at_number clauses.now.entries n ≡ Some item) × (m.clause ≡ item.0)) }
    ensures record { IfOk result (λ m. (bot : Sym) → tree_at bank.old room.old.constant ≡ app bot none → IsRecord bot bank.new clauses.now.entries n m) }
{
    let origin = origin_of(clauses, n).origin()?;
    let how = how_of(alloc, bank, room, clauses, origin)?;
    let clause = copied_clause(alloc, clause_of(clauses, n).as_slice())?;
    Ok(Made { clause, how })
}

// The entries in their order.
fn records_with(
    alloc: Global,
    bank: &mut Bank,
    room: &mut Instantiation,
    clauses: &Origins,
) -> Result<MadeList, Memory>
    requires entries { AreEntries bank.old clauses.now.entries }
    requires concluded { AreConcluded bank.old clauses.now.entries }
    requires constant { IsTermIn bank.old room.old.constant }
    ensures extends { Extends bank.old bank.new }
    ensures formed { OnOk result (AreFormed bank.new) }
    ensures records { IfOk result (λ ms. (bot : Sym) → tree_at bank.old room.old.constant ≡ app bot none → AreRecordsOf bot bank.new clauses.now.entries ms) }
{
    let mut made = Vec::with_capacity(alloc, clauses.len())?;
    for i in 0..clauses.len() {
        let record = record_of(alloc, bank, room, clauses, i + 1)?;
        made.push(record)?;
    }
    Ok(MadeList::from(made))
}

/// The entries with how each was made, in their order; the constant stands for variables that a part lacks. Time: for each
/// conclusion one unification and one instance, and for each part its renumbering beside that.
pub fn records_of(
    alloc: Global,
    bank: &mut Bank,
    bot: &Sym,
    clauses: &Origins,
) -> Result<MadeList, Memory>
    requires entries { AreEntries bank.old clauses.now.entries }
    requires concluded { AreConcluded bank.old clauses.now.entries }
    requires constant { IsTrue (is_constant bot.now) }
    ensures extends { Extends bank.old bank.new }
    ensures formed { OnOk result (AreFormed bank.new) }
    ensures records { IfOk result (AreRecordsOf bot.now bank.new clauses.now.entries) }
{
    let constant = bank.app(bot, &[])?;
    let mut room = Instantiation {
        bindings: Bindings::new(alloc),
        constant,
    };
    records_with(alloc, bank, &mut room, clauses)
}
