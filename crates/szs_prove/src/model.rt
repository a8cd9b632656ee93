// The model with so many elements of the problem of a file: its tables, or the refutation of the problem's flattened form. That form
// has no function symbols with arguments, so the engine decides it. A text is made whole before it is told.
ghost use Rattle.std.specs.Prelude.{◌≤◌, ◌<◌, IfErr, IfOk};
ghost use Rattle.outside_io.specs.Told.{Follows};
ghost use Rattle.tptp_load.specs.Problems.{IsGoodProblem};
ghost use Rattle.tptp_load.specs.Includes.{path_of};
ghost use Rattle.cert_format.specs.Printable.{IsTextName};
ghost use Rattle.cert_front.specs.Kinds.{covered_value, refutation_value};
ghost use Rattle.finite_model.specs.Tables.{IsTooWide};
ghost use Rattle.szs_prove.specs.Answers.{IsRefusal, IsUnanswered, reading};
ghost use Rattle.szs_prove.specs.Decisions.{IsDecision, IsShownBy, IsVerdict};
ghost use Rattle.szs_prove.specs.ModelAnswers.{HasModelAnswer, IsModelText, IsNoTablesText, IsTablesText, IsUnmodelled, flattened_problem};

use crate::decision::{Decision, decide};
use crate::refusal::{Reason, Refusal, problem_of_file};
use crate::saturation_test::tables_of;
use crate::table_texts::{no_tables_text, tables_text};
use crate::verdict_texts::refutation_text_of;
use cert_check::{CheckedCovered, CheckedRefutation};
use finite_model::{flatten, is_too_wide};
use inst_logic::{ByteList, Memory, Problem};
use outside_io::Library;
use std::alloc::Global;

// The text of the tables that the saturation gives.
fn tables_text_of(
    alloc: Global,
    k: usize,
    file: &str,
    p: &Problem,
    cert: &mut CheckedCovered,
) -> Result<ByteList, Memory>
    requires good { IsGoodProblem p.now }
    requires shown { IsShownBy (flattened_problem k p.now) (covered_value cert.old) }
    ensures { IfOk result (IsTablesText k file.now p.now) }
{
    let tables = tables_of(alloc, cert, p, k)?;
    tables_text(alloc, k, file.as_bytes(), &tables)
}

// The saturation is let go where its tables are told.
fn satisfiable_text(
    alloc: Global,
    k: usize,
    file: &str,
    p: &Problem,
    cert: CheckedCovered,
) -> Result<ByteList, Memory>
    requires good { IsGoodProblem p.now }
    requires shown { IsShownBy (flattened_problem k p.now) (covered_value cert) }
    ensures { IfOk result (IsTablesText k file.now p.now) }
{
    let mut cert = cert;
    tables_text_of(alloc, k, file, p, &mut cert)
}

// The text that tells that there are no tables.
fn unsatisfiable_text(
    alloc: Global,
    k: usize,
    file: &str,
    _p: &Problem,
    cert: CheckedRefutation,
) -> Result<ByteList, Memory>
    requires some { 0 < k }
    requires few { k ≤ 64 }
    requires good { IsGoodProblem _p.now }
    requires narrow { ¬ IsTooWide k _p.now.clauses }
    requires shown { IsShownBy (flattened_problem k _p.now) (refutation_value cert) }
    ensures { IfOk result (IsNoTablesText k file.now _p.now) }
{
    let refutation = refutation_text_of(alloc, file, cert)?;
    no_tables_text(alloc, k, file.as_bytes(), &refutation)
}

// The text of what was decided of the flattened form.
fn text_of(
    alloc: Global,
    k: usize,
    file: &str,
    p: &Problem,
    decision: Decision,
) -> Result<ByteList, Memory>
    requires some { 0 < k }
    requires few { k ≤ 64 }
    requires good { IsGoodProblem p.now }
    requires narrow { ¬ IsTooWide k p.now.clauses }
    requires decision { IsDecision (flattened_problem k p.now) 0 decision }
    requires verdict { IsVerdict decision }
    ensures { IfOk result (IsModelText k file.now p.now) }
{
    match decision {
        Decision::Unsatisfiable(cert) => unsatisfiable_text(alloc, k, file, p, cert),
        Decision::Satisfiable(cert) => satisfiable_text(alloc, k, file, p, cert),
        Decision::OutOfBudget { .. } => unreachable!(),
    }
}

// The text for a problem whose tables are not too wide. The flattened form wants no budget.
fn narrow_text(alloc: Global, k: usize, file: &str, p: &Problem) -> Result<ByteList, Memory>
    requires some { 0 < k }
    requires few { k ≤ 64 }
    requires good { IsGoodProblem p.now }
    requires narrow { ¬ IsTooWide k p.now.clauses }
    ensures { IfOk result (IsModelText k file.now p.now) }
{
    let flat = flatten(alloc, p, k)?;
    let decision = decide(alloc, &flat, 0)?;
    text_of(alloc, k, file, p, decision)
}

// The text for a problem, or that its tables are too wide.
fn model_text(alloc: Global, k: usize, file: &str, p: &Problem) -> Result<ByteList, Refusal>
    requires some { 0 < k }
    requires few { k ≤ 64 }
    requires good { IsGoodProblem p.now }
    ensures ok { IfOk result (IsModelText k file.now p.now) }
    ensures err { IfErr result (IsUnanswered (IsUnmodelled k) p.now) }
{
    if is_too_wide(alloc, p, k)? {
        return Err(Refusal::Unanswered(Reason::TooWide));
    }
    let text = narrow_text(alloc, k, file, p)?;
    Ok(text)
}

/// Tables over `k` elements that make every clause of the file's problem true, as text; or the refutation of the problem's flattened form,
/// where there are none. The root is where includes are tried too.
pub fn model_file<L: Library>(
    alloc: Global,
    k: usize,
    file: &str,
    root: Option<&str>,
    files: &mut L,
) -> Result<ByteList, Refusal>
    requires name { IsTextName file.now }
    requires some { 0 < k }
    requires few { k ≤ 64 }
    ensures follows { Follows (L.told files.old) (L.told files.new) }
    ensures ok { IfOk result (HasModelAnswer (L.told files.old).files k file.now (path_of root.entry)) }
    ensures err { IfErr result (IsRefusal (IsUnmodelled k) (reading (L.told files.old) (L.told files.new)) file.now (path_of root.entry)) }
{
    match problem_of_file(alloc, file, root, files) {
        Ok(problem) => model_text(alloc, k, file, &problem),
        Err(refusal) => Err(refusal),
    }
}
