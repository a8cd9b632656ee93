// The lists of certificates from texts of clauses. Only whoever puts them together owns a bank.
ghost use Rattle.std.specs.Prelude.{All, IfOk, OnOk};
ghost use Rattle.term_bank.specs.Forest.{AreFormed, Extends};
ghost use Rattle.tptp_read.specs.Text.{IsFormedStatement};
ghost use Rattle.cert_values.specs.Wholes.{IsWholeClause};

use cert_values::{
    GroundHint, GroundHintList, GroundStep, GroundStepList, Member, MemberList, Origin,
};
use inst_logic::{Memory, NumberList, PlaceList};
use std::alloc::Global;
use std::test::Fail;
use term_bank::{Bank, IdClauseList};
use tptp_read::{Statement, read_text};

// Adds the clause of the statement, if it has one.
fn add_clause(bank: &mut Bank, ids: &mut IdClauseList, statement: &Statement) -> Result<(), Memory>
    requires formed { IsFormedStatement statement.now }
    requires bank { AreFormed bank.old }
    requires ids { All (IsWholeClause bank.old) ids.old }
    ensures formed { AreFormed bank.new }
    ensures extends { Extends bank.old bank.new }
    ensures ids { OnOk result (All (IsWholeClause bank.new) ids.new) }
{
    if let Statement::Cnf { clause, .. } = statement {
        ids.push(bank.clause(clause)?)?;
    }
    Ok(())
}

// The clauses of the text, in this bank.
fn clauses_in(alloc: Global, bank: &mut Bank, text: &str) -> Result<IdClauseList, Fail>
    requires bank { AreFormed bank.old }
    ensures formed { AreFormed bank.new }
    ensures extends { Extends bank.old bank.new }
    ensures ids { IfOk result (All (IsWholeClause bank.new)) }
{
    let statements = read_text(alloc, text.as_bytes())?;
    let mut ids = IdClauseList::new(alloc);
    for statement in statements.as_slice() {
        add_clause(bank, &mut ids, statement)?;
    }
    Ok(ids)
}

// Adds the clause of the statement, if it has one, as a member of this origin.
fn add_member(
    bank: &mut Bank,
    members: &mut MemberList,
    statement: &Statement,
    origin: Origin,
) -> Result<(), Memory>
    requires formed { IsFormedStatement statement.now }
    requires bank { AreFormed bank.old }
    requires members { All (λ m. IsWholeClause bank.old m.clause) members.old }
    ensures formed { AreFormed bank.new }
    ensures extends { Extends bank.old bank.new }
    ensures members { OnOk result (All (λ m. IsWholeClause bank.new m.clause) members.new) }
{
    if let Statement::Cnf { clause, .. } = statement {
        members.push(Member {
            clause: bank.clause(clause)?,
            origin,
        })?;
    }
    Ok(())
}

// Where a member comes from, with borrowed lists.
#[derive(Clone, Copy)]
pub enum Source<'a> {
    Input(usize),
    Inst(Conclusion),
    Lemma {
        conclusion: Conclusion,
        keep: &'a [usize],
        premises: &'a [usize],
    },
}

// A member and a literal, and their partners.
#[derive(Clone, Copy)]
pub struct Conclusion {
    pub from: usize,
    pub place: usize,
    pub partner: usize,
    pub other: usize,
}

fn lemma_of(
    alloc: Global,
    conclusion: Conclusion,
    keep: &[usize],
    premises: &[usize],
) -> Result<Origin, Memory> {
    let Conclusion {
        from,
        place,
        partner,
        other,
    } = conclusion;
    Ok(Origin::Lemma {
        from,
        place,
        partner,
        other,
        keep: PlaceList::from(keep.to_vec(alloc)?),
        premises: NumberList::from(premises.to_vec(alloc)?),
    })
}

fn inst_of(conclusion: Conclusion) -> Origin {
    let Conclusion {
        from,
        place,
        partner,
        other,
    } = conclusion;
    Origin::Inst {
        from,
        place,
        partner,
        other,
    }
}

// The origin of the member at place `i`, from 0, or `input` with its own number where there are no more.
fn origin_of(alloc: Global, sources: &[Source], i: usize) -> Result<Origin, Memory> {
    match sources.get(i) {
        None => Ok(Origin::Input(i.saturating_add(1))),
        Some(Source::Input(k)) => Ok(Origin::Input(*k)),
        Some(Source::Inst(conclusion)) => Ok(inst_of(*conclusion)),
        Some(
            Source::Lemma {
                conclusion,
                keep,
                premises,
            },
        ) => lemma_of(alloc, *conclusion, keep, premises),
    }
}

// The clauses of the text as members with these origins, or `input` with their own number where there are no more.
fn members_in(
    alloc: Global,
    bank: &mut Bank,
    text: &str,
    sources: &[Source],
) -> Result<MemberList, Fail>
    requires bank { AreFormed bank.old }
    ensures formed { AreFormed bank.new }
    ensures extends { Extends bank.old bank.new }
    ensures members { IfOk result (All (λ m. IsWholeClause bank.new m.clause)) }
{
    let statements = read_text(alloc, text.as_bytes())?;
    let mut members = MemberList::new(alloc);
    for (i, statement) in statements.as_slice().iter().enumerate() {
        let origin = origin_of(alloc, sources, i)?;
        add_member(bank, &mut members, statement, origin)?;
    }
    Ok(members)
}

// Adds the clause of the statement, if it has one, as a step with these hints.
fn add_step(
    alloc: Global,
    bank: &mut Bank,
    steps: &mut GroundStepList,
    statement: &Statement,
    hints: &[GroundHint],
) -> Result<(), Memory>
    requires formed { IsFormedStatement statement.now }
    requires bank { AreFormed bank.old }
    requires steps { All (λ s. IsWholeClause bank.old s.clause) steps.old }
    ensures formed { AreFormed bank.new }
    ensures extends { Extends bank.old bank.new }
    ensures steps { OnOk result (All (λ s. IsWholeClause bank.new s.clause) steps.new) }
{
    if let Statement::Cnf { clause, .. } = statement {
        let hints = GroundHintList::from(hints.to_vec(alloc)?);
        steps.push(GroundStep {
            clause: bank.clause(clause)?,
            hints,
        })?;
    }
    Ok(())
}

// The clauses of the text as steps, each with these hints.
fn steps_in(
    alloc: Global,
    bank: &mut Bank,
    text: &str,
    hints: &[GroundHint],
) -> Result<GroundStepList, Fail>
    requires bank { AreFormed bank.old }
    ensures formed { AreFormed bank.new }
    ensures extends { Extends bank.old bank.new }
    ensures steps { IfOk result (All (λ s. IsWholeClause bank.new s.clause)) }
{
    let statements = read_text(alloc, text.as_bytes())?;
    let mut steps = GroundStepList::new(alloc);
    for statement in statements.as_slice() {
        add_step(alloc, bank, &mut steps, statement, hints)?;
    }
    Ok(steps)
}

// The texts of a certificate. The members have these origins, or `input` with their own number where there are no more, and
// each step has these hints.
#[derive(Drop)]
pub struct Worked<'a> {
    pub inputs: &'a str,
    pub axioms: &'a str,
    pub members: &'a str,
    pub origins: &'a [Source<'a>],
    pub grounds: &'a str,
    pub steps: &'a str,
    pub hints: &'a [GroundHint],
}

// The lists of a base.
#[derive(Drop)]
pub struct BaseLists {
    pub inputs: IdClauseList,
    pub axioms: IdClauseList,
    pub members: MemberList,
}

// The lists of a derivation.
#[derive(Drop)]
pub struct ProofLists {
    pub grounds: IdClauseList,
    pub steps: GroundStepList,
}

// All lists of a refutation.
#[derive(Drop)]
pub struct RefutationLists {
    pub base: BaseLists,
    pub proof: ProofLists,
}

// The inputs, the axioms and the members of these texts.
pub fn base_lists(alloc: Global, bank: &mut Bank, worked: &Worked) -> Result<BaseLists, Fail>
    requires { AreFormed bank.old }
    ensures formed { AreFormed bank.new }
    ensures inputs { IfOk result (λ l. All (IsWholeClause bank.new) l.inputs) }
    ensures axioms { IfOk result (λ l. All (IsWholeClause bank.new) l.axioms) }
    ensures members { IfOk result (λ l. All (λ m. IsWholeClause bank.new m.clause) l.members) }
{
    let inputs = clauses_in(alloc, bank, worked.inputs)?;
    let axioms = clauses_in(alloc, bank, worked.axioms)?;
    let members = members_in(alloc, bank, worked.members, worked.origins)?;
    Ok(BaseLists {
        inputs,
        axioms,
        members,
    })
}

// The ground clauses and the steps of these texts.
fn proof_lists(alloc: Global, bank: &mut Bank, worked: &Worked) -> Result<ProofLists, Fail>
    requires { AreFormed bank.old }
    ensures formed { AreFormed bank.new }
    ensures extends { Extends bank.old bank.new }
    ensures grounds { IfOk result (λ l. All (IsWholeClause bank.new) l.grounds) }
    ensures steps { IfOk result (λ l. All (λ s. IsWholeClause bank.new s.clause) l.steps) }
{
    let grounds = clauses_in(alloc, bank, worked.grounds)?;
    let steps = steps_in(alloc, bank, worked.steps, worked.hints)?;
    Ok(ProofLists { grounds, steps })
}

// The lists of the refutation of these texts.
pub fn refutation_lists(
    alloc: Global,
    bank: &mut Bank,
    worked: &Worked,
) -> Result<RefutationLists, Fail>
    requires { AreFormed bank.old }
    ensures formed { AreFormed bank.new }
    ensures inputs { IfOk result (λ l. All (IsWholeClause bank.new) l.base.inputs) }
    ensures axioms { IfOk result (λ l. All (IsWholeClause bank.new) l.base.axioms) }
    ensures members { IfOk result (λ l. All (λ m. IsWholeClause bank.new m.clause) l.base.members) }
    ensures grounds { IfOk result (λ l. All (IsWholeClause bank.new) l.proof.grounds) }
    ensures steps { IfOk result (λ l. All (λ s. IsWholeClause bank.new s.clause) l.proof.steps) }
{
    let base = base_lists(alloc, bank, worked)?;
    let proof = proof_lists(alloc, bank, worked)?;
    Ok(RefutationLists { base, proof })
}
