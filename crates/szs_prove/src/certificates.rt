// What comes of a run on a problem that is always decided: the text of its certificate, the certificate itself where it is known
// of which kind it is, or which clauses its refutation cites.
ghost use Rattle.std.specs.Prelude.{IfOk};
ghost use Rattle.cert_front.specs.Kinds.{covered_value, refutation_value};
ghost use Rattle.core_min.specs.Cores.{HasRefutation, HasSelection};
ghost use Rattle.szs_prove.specs.Decisions.{IsDecision, IsShownBy, IsVerdict};
ghost use Rattle.szs_prove.specs.Proving.{HasCertificate};
ghost use Rattle.szs_prove.specs.SubProblems.{IsDecidable, IsSettled};

use crate::citations::cited_by;
use crate::decision::{Decision, decide};
use cert_check::{CheckedCovered, CheckedRefutation};
use cert_text::{covered_text, refutation_text};
use inst_logic::{ByteList, ListOf, Memory, Problem};
use std::alloc::Global;

// The text of what was decided.
fn text_of(alloc: Global, file: &str, _p: &Problem, decision: &Decision) -> Result<ByteList, Memory>
    requires decision { IsDecision _p.now 0 decision.now }
    requires verdict { IsVerdict decision.now }
    ensures { IfOk result (HasCertificate _p.now file.now) }
{
    match decision {
        Decision::Unsatisfiable(cert) => refutation_text(alloc, file.as_bytes(), cert),
        Decision::Satisfiable(cert) => covered_text(alloc, file.as_bytes(), cert),
        Decision::OutOfBudget { .. } => unreachable!(),
    }
}

/// The text of a certificate of the problem, under the file's name.
pub fn certificate_of(alloc: Global, file: &str, p: &Problem) -> Result<ByteList, Memory>
    requires { IsDecidable p.now }
    ensures { IfOk result (HasCertificate p.now file.now) }
{
    let decision = decide(alloc, p, 0)?;
    let text = text_of(alloc, file, p, &decision);
    // Let go by a call, here and below: where the scope of one ends, the proof takes long.
    drop(decision);
    text
}

// What was decided, as marks.
fn marks_of(alloc: Global, p: &Problem, decision: &Decision) -> Result<Option<ListOf<bool>>, Memory>
    requires decision { IsDecision p.now 0 decision.now }
    requires verdict { IsVerdict decision.now }
    ensures { IfOk result (IsSettled p.now.clauses) }
{
    match decision {
        Decision::Unsatisfiable(checked) => {
            let marks = cited_by(alloc, checked.cert(), p.clauses.len())?;
            Ok(Some(marks))
        }
        Decision::Satisfiable(_) => Ok(None),
        Decision::OutOfBudget { .. } => unreachable!(),
    }
}

/// For each clause of the problem whether its refutation cites it; `None` where the problem is satisfiable.
pub fn cited_clauses(alloc: Global, p: &Problem) -> Result<Option<ListOf<bool>>, Memory>
    requires { IsDecidable p.now }
    ensures { IfOk result (IsSettled p.now.clauses) }
{
    let decision = decide(alloc, p, 0)?;
    let marks = marks_of(alloc, p, &decision);
    drop(decision);
    marks
}

// What was decided of refuted clauses is a refutation.
fn refutation_in(_p: &Problem, decision: Decision) -> CheckedRefutation
    requires decision { IsDecision _p.now 0 decision }
    requires verdict { IsVerdict decision }
    requires refuted { HasRefutation _p.now.clauses }
    ensures { IsShownBy _p.now (refutation_value result) }
{
    match decision {
        Decision::Unsatisfiable(cert) => cert,
        Decision::Satisfiable(_) => unreachable!(),
        Decision::OutOfBudget { .. } => unreachable!(),
    }
}

/// A refutation of the problem, which has one.
pub fn refutation_of(alloc: Global, p: &Problem) -> Result<CheckedRefutation, Memory>
    requires decidable { IsDecidable p.now }
    requires refuted { HasRefutation p.now.clauses }
    ensures { IfOk result (λ c. IsShownBy p.now (refutation_value c)) }
{
    let decision = decide(alloc, p, 0)?;
    Ok(refutation_in(p, decision))
}

// What was decided of satisfiable clauses is a saturation.
fn saturation_in(_p: &Problem, decision: Decision) -> CheckedCovered
    requires decision { IsDecision _p.now 0 decision }
    requires verdict { IsVerdict decision }
    requires satisfiable { HasSelection _p.now.clauses }
    ensures { IsShownBy _p.now (covered_value result) }
{
    match decision {
        Decision::Unsatisfiable(_) => unreachable!(),
        Decision::Satisfiable(cert) => cert,
        Decision::OutOfBudget { .. } => unreachable!(),
    }
}

/// A saturation of the problem, which has one.
pub fn saturation_of(alloc: Global, p: &Problem) -> Result<CheckedCovered, Memory>
    requires decidable { IsDecidable p.now }
    requires satisfiable { HasSelection p.now.clauses }
    ensures { IfOk result (λ c. IsShownBy p.now (covered_value c)) }
{
    let decision = decide(alloc, p, 0)?;
    Ok(saturation_in(p, decision))
}
