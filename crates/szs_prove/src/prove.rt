// The verdict on the problem of a file: it is loaded, decided, and the text of its certificate is made whole before anything
// is written, so that where memory is refused there is no verdict that breaks off.
ghost use Rattle.std.specs.Prelude.{◌≤◌, IfOk, IfErr};
ghost use Rattle.cert_format.specs.Printable.{IsTextName};
ghost use Rattle.outside_io.specs.Told.{Follows};
ghost use Rattle.tptp_load.specs.Problems.{IsGoodProblem};
ghost use Rattle.tptp_load.specs.Includes.{path_of};
ghost use Rattle.szs_prove.specs.Decisions.{IsDecision};
ghost use Rattle.szs_prove.specs.Answers.{HasVerdict, IsRefusal, IsUnanswered, IsUndecided, reading};
ghost use Rattle.szs_prove.specs.Proving.{HasCertificate};

use crate::decision::{Decision, decide};
use crate::decision_laws::loaded_problems_are_printable;
use crate::refusal::{Reason, Refusal, problem_of_file};
use crate::verdict_texts::{refutation_text_of, saturation_text_of};
use inst_logic::{ByteList, Problem};
use outside_io::Library;
use std::alloc::Global;

// The text of what was decided of the problem in this budget.
fn text_of(
    alloc: Global,
    file: &str,
    _problem: &Problem,
    budget: u64,
    decision: Decision,
) -> Result<ByteList, Refusal>
    requires { IsDecision _problem.now budget decision }
    ensures ok { IfOk result (HasCertificate _problem.now file.now) }
    ensures err { IfErr result (IsUnanswered (IsUndecided budget) _problem.now) }
{
    match decision {
        Decision::Unsatisfiable(cert) => {
            let refutation = refutation_text_of(alloc, file, cert)?;
            Ok(refutation)
        }
        Decision::Satisfiable(cert) => {
            let saturation = saturation_text_of(alloc, file, cert)?;
            Ok(saturation)
        }
        Decision::OutOfBudget { left, wanted } => Err(Refusal::Unanswered(Reason::OutOfBudget {
            budget,
            left,
            wanted,
        })),
    }
}

// The text of a certificate of the problem.
fn certificate(
    alloc: Global,
    file: &str,
    problem: &Problem,
    budget: u64,
) -> Result<ByteList, Refusal>
    requires problem { IsGoodProblem problem.now }
    requires budget { budget ≤ 1000000000000 }
    ensures ok { IfOk result (HasCertificate problem.now file.now) }
    ensures err { IfErr result (IsUnanswered (IsUndecided budget) problem.now) }
{
    loaded_problems_are_printable();
    let decision = decide(alloc, problem, budget)?;
    text_of(alloc, file, problem, budget, decision)
}

/// The text of a certificate for the problem of the file, or why there is none. The root is where includes are tried too, the
/// budget counts symbols.
pub fn prove<L: Library>(
    alloc: Global,
    file: &str,
    root: Option<&str>,
    budget: u64,
    files: &mut L,
) -> Result<ByteList, Refusal>
    requires name { IsTextName file.now }
    requires budget { budget ≤ 1000000000000 }
    ensures follows { Follows (L.told files.old) (L.told files.new) }
    ensures ok { IfOk result (HasVerdict (L.told files.old).files file.now (path_of root.entry)) }
    ensures err { IfErr result (IsRefusal (IsUndecided budget) (reading (L.told files.old) (L.told files.new)) file.now (path_of root.entry)) }
{
    match problem_of_file(alloc, file, root, files) {
        Ok(problem) => certificate(alloc, file, &problem, budget),
        Err(refusal) => Err(refusal),
    }
}
