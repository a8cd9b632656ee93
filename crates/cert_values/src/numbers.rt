// The numbers of certificates. They are of 64 bits because they are machine numbers, which is known of each once it is read:
// so whoever makes a certificate asks here once at the end, and carries no ranges before.
ghost use Rattle.std.specs.Prelude.{map, length, ◌<◌, All, IsTrue};
ghost use Rattle.inst_logic.specs.Readable.{tree_fits};
ghost use Rattle.term_bank.specs.Forest.{IsClauseOf, clause_at, tree_at};
ghost use Rattle.cert_format.specs.Certificate.{covered, first_refutation, refutation, saturation};
ghost use Rattle.cert_format.specs.Printable.{IsNumber, HasNumbers, BaseFits, ByFits, ClauseFits, CoverFits, EntryFits, LineFits, StepFits, NumbersFit, cited_number};
ghost use Rattle.cert_values.specs.Values.{base_of, by_of, cover_of, covered_of, entry_of, first_of, hint_of, line_of, origin_of, refutation_of, saturation_of, step_of};
ghost use Rattle.cert_values.specs.Wholes.{IsWholeBase, IsWholeClause, IsWholeCover, IsWholeCovered, IsWholeFirst, IsWholeLine, IsWholeRefutation, IsWholeSaturation};

use crate::certificate::{
    Base, By, ByList, Cover, CoverList, Covered, FirstRefutation, GroundHint, GroundLine,
    GroundLineList, GroundStep, GroundStepList, Refutation, Saturation,
};
use crate::member::{Member, Origin};
use inst_logic::NumberList;
use term_bank::{Bank, IdClause, IdClauseList, TermId};

fn number_fits(_number: usize)
    ensures { IsNumber _number }
{}

fn atom_fits(bank: &Bank, atom: TermId)
    requires { atom < length bank.now.trees }
    ensures { IsTrue (tree_fits (tree_at bank.now atom)) }
{
    if let Some(v) = bank.greatest_variable(atom) {
        number_fits(v);
    }
}

fn clause_fits(bank: &Bank, clause: &IdClause)
    requires { IsClauseOf bank.now clause.now }
    ensures { ClauseFits (clause_at bank.now clause.now) }
{
    for l in clause.as_slice() {
        atom_fits(bank, l.atom);
    }
}

fn clauses_fit(bank: &Bank, clauses: &IdClauseList)
    requires { All (IsWholeClause bank.now) clauses.now }
    ensures each { All ClauseFits (map (clause_at bank.now) clauses.now) }
    ensures count { IsNumber (length clauses.now) }
{
    number_fits(clauses.len());
    for clause in clauses.as_slice() {
        clause_fits(bank, clause);
    }
}

fn numbers_fit(numbers: &NumberList)
    ensures { All IsNumber numbers.now }
{
    for number in numbers.as_slice() {
        number_fits(*number);
    }
}

fn origin_fits(origin: &Origin)
    ensures { HasNumbers (origin_of origin.now) }
{
    match origin {
        Origin::Input(k) => number_fits(*k),
        Origin::Inst {
            from,
            place,
            partner,
            other,
        } => {
            number_fits(*from);
            number_fits(*place);
            number_fits(*partner);
            number_fits(*other);
        }
        Origin::Lemma {
            from,
            place,
            partner,
            other,
            keep,
            premises,
        } => {
            number_fits(*from);
            number_fits(*place);
            number_fits(*partner);
            number_fits(*other);
            numbers_fit(keep);
            numbers_fit(premises);
        }
    }
}

fn member_fits(bank: &Bank, member: &Member)
    requires { IsWholeClause bank.now member.now.clause }
    ensures { EntryFits (entry_of bank.now member.now) }
{
    clause_fits(bank, &member.clause);
    origin_fits(&member.origin);
}

fn members_fit(base: &Base)
    requires { All (λ m. IsWholeClause base.now.bank m.clause) base.now.members }
    ensures each { All EntryFits (map (entry_of base.now.bank) base.now.members) }
    ensures count { IsNumber (length base.now.members) }
{
    number_fits(base.members.len());
    for member in base.members.as_slice() {
        member_fits(&base.bank, member);
    }
}

fn base_fits(base: &Base)
    requires { IsWholeBase base.now }
    ensures { BaseFits (base_of base.now) }
{
    clauses_fit(&base.bank, &base.inputs);
    clauses_fit(&base.bank, &base.axioms);
    members_fit(base);
}

fn hint_fits(hint: &GroundHint)
    ensures { IsNumber (cited_number (hint_of hint.now)) }
{
    match hint {
        GroundHint::Ground(n) => number_fits(*n),
        GroundHint::Step(n) => number_fits(*n),
    }
}

fn step_fits(bank: &Bank, step: &GroundStep)
    requires { IsWholeClause bank.now step.now.clause }
    ensures { StepFits (step_of bank.now step.now) }
{
    clause_fits(bank, &step.clause);
    for hint in step.hints.as_slice() {
        hint_fits(hint);
    }
}

fn steps_fit(bank: &Bank, steps: &GroundStepList)
    requires { All (λ s. IsWholeClause bank.now s.clause) steps.now }
    ensures each { All StepFits (map (step_of bank.now) steps.now) }
    ensures count { IsNumber (length steps.now) }
{
    number_fits(steps.len());
    for step in steps.as_slice() {
        step_fits(bank, step);
    }
}

fn line_fits(bank: &Bank, line: &GroundLine)
    requires { IsWholeLine bank.now line.now }
    ensures { LineFits (line_of bank.now line.now) }
{
    clause_fits(bank, &line.clause);
    number_fits(line.input);
}

fn lines_fit(bank: &Bank, lines: &GroundLineList)
    requires { All (IsWholeLine bank.now) lines.now }
    ensures each { All LineFits (map (line_of bank.now) lines.now) }
    ensures count { IsNumber (length lines.now) }
{
    number_fits(lines.len());
    for line in lines.as_slice() {
        line_fits(bank, line);
    }
}

fn by_fits(_bank: &Bank, by: &By)
    ensures { ByFits (by_of _bank.now by.now) }
{
    match by {
        By::Tautology => {}
        By::Variant(n) => number_fits(*n),
        By::Part { member, .. } => number_fits(*member),
    }
}

fn bys_fit(bank: &Bank, bys: &ByList)
    ensures each { All ByFits (map (by_of bank.now) bys.now) }
    ensures count { IsNumber (length bys.now) }
{
    number_fits(bys.len());
    for by in bys.as_slice() {
        by_fits(bank, by);
    }
}

fn cover_fits(bank: &Bank, cover: &Cover)
    requires { IsWholeCover bank.now cover.now }
    ensures { CoverFits (cover_of bank.now cover.now) }
{
    number_fits(cover.left);
    number_fits(cover.right);
    clause_fits(bank, &cover.clause);
    by_fits(bank, &cover.by);
}

fn covers_fit(bank: &Bank, covers: &CoverList)
    requires { All (IsWholeCover bank.now) covers.now }
    ensures each { All CoverFits (map (cover_of bank.now) covers.now) }
    ensures count { IsNumber (length covers.now) }
{
    number_fits(covers.len());
    for cover in covers.as_slice() {
        cover_fits(bank, cover);
    }
}

/// The numbers of the refutation of the first format, all of which a text can have. It reads each of them once, and takes no
/// memory.
pub fn first_numbers(cert: &FirstRefutation)
    requires { IsWholeFirst cert.now }
    ensures { NumbersFit (first_refutation (first_of cert.now)) }
{
    base_fits(&cert.base);
    clauses_fit(&cert.base.bank, &cert.grounds);
    steps_fit(&cert.base.bank, &cert.steps);
}

/// The numbers of a refutation whose ground clauses name their inputs, all of which a text can have.
pub fn refutation_numbers(cert: &Refutation)
    requires { IsWholeRefutation cert.now }
    ensures { NumbersFit (refutation (refutation_of cert.now)) }
{
    base_fits(&cert.base);
    lines_fit(&cert.base.bank, &cert.grounds);
    steps_fit(&cert.base.bank, &cert.steps);
}

/// The numbers of a saturation, all of which a text can have.
pub fn saturation_numbers(cert: &Saturation)
    requires { IsWholeSaturation cert.now }
    ensures { NumbersFit (saturation (saturation_of cert.now)) }
{
    base_fits(&cert.base);
    numbers_fit(&cert.places);
}

/// The numbers of a saturation with its covers, all of which a text can have.
pub fn covered_numbers(cert: &Covered)
    requires { IsWholeCovered cert.now }
    ensures { NumbersFit (covered (covered_of cert.now)) }
{
    saturation_numbers(&cert.cert);
    bys_fit(&cert.cert.base.bank, &cert.shown);
    covers_fit(&cert.cert.base.bank, &cert.covers);
}
