// What is known to be valid is accepted by the checker: it has no complaint, and only memory can be wanted.
ghost use Rattle.std.specs.Prelude.{◌≡◌, IfErr, IfOk, IsErr, MatchResult};
ghost use Rattle.cert_format.specs.Printable.{CoveredFits};
ghost use Rattle.cert_format.specs.Validity.{IsNamed, IsValidByLines, IsValidSaturation};
ghost use Rattle.cert_check.specs.declared.error.CheckError.TheVariants as errors;
ghost use Rattle.cert_values.specs.Values.{covered_of, refutation_of, saturation_of};
ghost use Rattle.cert_values.specs.Wholes.{IsWholeCovered, IsWholeRefutation, IsWholeSaturation};

use cert_check::{
    CheckError, CheckedCovered, CheckedRefutation, check_covered, check_refutation, cover,
};
use cert_values::{Covered, Refutation, Saturation, covered_numbers};
use inst_logic::Memory;
use std::alloc::Global;

// What the checker says, where it has no complaint.
fn accepted_value<T: Drop>(checked: Result<T, CheckError>) -> Result<T, Memory>
    requires { IfErr checked (λ e. e ≡ errors.Memory) }
    ensures { MatchResult checked (λ t. IfOk result (λ u. u ≡ t)) (λ _. IsErr result) }
{
    match checked {
        Ok(t) => Ok(t),
        Err(CheckError::Memory) => Err(Memory),
        Err(CheckError::Complaint(_)) => unreachable!(),
    }
}

/// A valid refutation, checked.
pub fn accept_refutation(alloc: Global, cert: Refutation) -> Result<CheckedRefutation, Memory>
    requires whole { IsWholeRefutation cert }
    requires valid { IsValidByLines (refutation_of cert) }
    ensures { IfOk result (λ c. refutation_of c ≡ refutation_of cert) }
{
    accepted_value(check_refutation(alloc, cert))
}

/// A saturation with right covers, checked.
pub fn accept_covered(alloc: Global, cert: Covered) -> Result<CheckedCovered, Memory>
    requires whole { IsWholeCovered cert }
    requires named { IsNamed (covered_of cert) }
    ensures { IfOk result (λ c. covered_of c ≡ covered_of cert) }
{
    accepted_value(check_covered(alloc, cert))
}

// What covers the clauses of a valid saturation.
fn covers_of(alloc: Global, cert: Saturation) -> Result<Covered, Memory>
    requires whole { IsWholeSaturation cert }
    requires valid { IsValidSaturation (saturation_of cert) }
    ensures whole { IfOk result IsWholeCovered }
    ensures named { IfOk result (λ c. IsNamed (covered_of c)) }
    ensures same { IfOk result (λ c. (covered_of c).saturation ≡ saturation_of cert) }
{
    accepted_value(cover(alloc, cert))
}

/// A valid saturation, checked with its covers, which are found here.
pub fn accept_saturation(alloc: Global, cert: Saturation) -> Result<CheckedCovered, Memory>
    requires whole { IsWholeSaturation cert }
    requires valid { IsValidSaturation (saturation_of cert) }
    ensures same { IfOk result (λ c. (covered_of c).saturation ≡ saturation_of cert) }
    ensures named { IfOk result (λ c. IsNamed (covered_of c)) }
    ensures fits { IfOk result (λ c. CoveredFits (covered_of c)) }
{
    let covered = covers_of(alloc, cert)?;
    covered_numbers(&covered);
    accept_covered(alloc, covered)
}
