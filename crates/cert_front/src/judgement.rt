// What a certificate is found to be: valid and of the problem, or the first reason why it is not. Where it is valid, the checked
// value is handed back.
ghost use Rattle.std.specs.Prelude.{IfOk, option_copied, None};
ghost use Rattle.std.specs.Option.{ForSome};
ghost use Rattle.inst_logic.specs.WellFormed.{AreFormedClauses};
ghost use Rattle.cert_front.specs.Judgements.{IsChecked};

use crate::kind::Kind;
use cert_check::{CheckError, Complaint};
use inst_logic::{Memory, Problem};
use std::alloc::Global;

/// What a certificate is found to be. Numbers count from 1.
#[derive(Clone, Copy, Debug, PartialEq, Eq)]
pub enum Judgement {
    /// It is valid, and its input clauses are the problem's, where one is given.
    Valid,
    /// Input clause `n` and clause `n` of the problem differ, or one list ends before `n`.
    Problem { n: usize },
    /// The input clauses are the problem's, where one is given, and this is the first complaint.
    Invalid(Complaint),
}

// The check of a certificate without a problem.
fn judge_alone<C: Kind>(alloc: Global, cert: C) -> Result<Result<C::Checked, Judgement>, Memory>
    requires { C.whole cert }
    ensures { IfOk result (IsChecked C.checked_value None (C.value cert)) }
{
    match cert.check(alloc) {
        Ok(checked) => Ok(Ok(checked)),
        Err(CheckError::Complaint(complaint)) => Ok(Err(Judgement::Invalid(complaint))),
        Err(CheckError::Memory) => Err(Memory),
    }
}

// Checks the certificate, and that it is of the problem, where one is given.
pub(crate) fn judge<C: Kind>(
    alloc: Global,
    cert: C,
    problem: Option<&Problem>,
) -> Result<Result<C::Checked, Judgement>, Memory>
    requires whole { C.whole cert }
    requires problem { ForSome problem (λ p. AreFormedClauses p.now.clauses) }
    ensures { IfOk result (IsChecked C.checked_value (option_copied problem.entry) (C.value cert)) }
{
    let mut cert = cert;
    match cert.difference(problem) {
        Ok(None) => judge_alone(alloc, cert),
        Ok(Some(n)) => Ok(Err(Judgement::Problem { n })),
        Err(Memory) => Err(Memory),
    }
}
