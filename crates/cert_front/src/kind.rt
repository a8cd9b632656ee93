// What the four kinds of certificates have in common: each is compared with a problem, and then checked. Whatever owns a
// certificate of some kind is one function over all of them.
ghost use Rattle.std.specs.Prelude.{◌≡◌, IfOk, IfErr, OnOk, option_copied};
ghost use Rattle.std.specs.Option.{ForSome};
ghost use Rattle.inst_logic.specs.WellFormed.{AreFormedClauses};
ghost use Rattle.cert_check.specs.Answers.{IsCheckCause};
ghost use Rattle.cert_format.specs.Certificate.{Certificate, base_of};
ghost use Rattle.cert_format.specs.Validity.{IsValid};
ghost use Rattle.cert_values.specs.Wholes.{IsWholeCovered, IsWholeFirst, IsWholeRefutation, IsWholeSaturation};
ghost use Rattle.cert_front.specs.Checks.{form_of};
ghost use Rattle.cert_front.specs.Judgements.{IsDifference, Passes};
ghost use Rattle.cert_front.specs.Kinds.{covered_value, first_value, refutation_value, saturation_value, uncovered_value};

use crate::difference::difference;
use crate::words::Form;
use cert_check::{
    CheckError, CheckedCovered, CheckedFirst, CheckedRefutation, CheckedSaturation, check_covered,
    check_first, check_refutation, check_saturation, cover,
};
use cert_format::covers::named_is_valid;
use cert_values::{Covered, FirstRefutation, Refutation, Saturation};
use inst_logic::{Memory, Problem};
use std::alloc::Global;

/// A certificate of one kind, which nobody has checked.
pub(crate) trait Kind: Drop {
    /// One that was checked.
    type Checked: Drop;

    /// Its ids are those of its bank.
    ghost whole: { Self → Type 0 };

    /// The certificate as mathematics.
    ghost value: { Self → Certificate };

    /// What a checked one is the check of.
    ghost checked_value: { Self.Checked → Certificate };

    /// The form of certificates of this kind.
    fn form(&self) -> Form
        ensures { result ≡ form_of (value self.now) };

    /// The number of the first input clause that is not the problem's, where a problem is given.
    fn difference(&mut self, problem: Option<&Problem>) -> Result<Option<usize>, Memory>
        requires whole { whole self.old }
        requires problem { ForSome problem (λ p. AreFormedClauses p.now.clauses) }
        ensures whole { OnOk result (whole self.new) }
        ensures same { value self.new ≡ value self.old }
        ensures first { IfOk result (IsDifference (option_copied problem.entry) (base_of (value self.old))) };

    /// The certificate, checked.
    fn check(self, alloc: Global) -> Result<Self::Checked, CheckError>
        requires { whole self }
        ensures valid { IfOk result (λ _. IsValid (value self)) }
        ensures same { IfOk result (λ c. checked_value c ≡ value self) }
        ensures complaint { IfErr result (IsCheckCause (Passes (value self))) };
}

impl Kind for FirstRefutation {
    type Checked = CheckedFirst;

    ghost whole = { IsWholeFirst };

    ghost value = { first_value };

    ghost checked_value = { first_value };

    fn form(&self) -> Form {
        Form::Refutation
    }

    fn difference(&mut self, problem: Option<&Problem>) -> Result<Option<usize>, Memory> {
        difference(&mut self.base, problem)
    }

    fn check(self, alloc: Global) -> Result<CheckedFirst, CheckError> {
        check_first(alloc, self)
    }
}

impl Kind for Refutation {
    type Checked = CheckedRefutation;

    ghost whole = { IsWholeRefutation };

    ghost value = { refutation_value };

    ghost checked_value = { refutation_value };

    fn form(&self) -> Form {
        Form::Refutation
    }

    fn difference(&mut self, problem: Option<&Problem>) -> Result<Option<usize>, Memory> {
        difference(&mut self.base, problem)
    }

    fn check(self, alloc: Global) -> Result<CheckedRefutation, CheckError> {
        check_refutation(alloc, self)
    }
}

impl Kind for Saturation {
    type Checked = CheckedSaturation;

    ghost whole = { IsWholeSaturation };

    ghost value = { saturation_value };

    ghost checked_value = { saturation_value };

    fn form(&self) -> Form {
        Form::Saturation
    }

    fn difference(&mut self, problem: Option<&Problem>) -> Result<Option<usize>, Memory> {
        difference(&mut self.base, problem)
    }

    fn check(self, alloc: Global) -> Result<CheckedSaturation, CheckError> {
        check_saturation(alloc, self)
    }
}

impl Kind for Covered {
    type Checked = CheckedCovered;

    ghost whole = { IsWholeCovered };

    ghost value = { covered_value };

    ghost checked_value = { covered_value };

    fn form(&self) -> Form {
        Form::Saturation
    }

    fn difference(&mut self, problem: Option<&Problem>) -> Result<Option<usize>, Memory> {
        difference(&mut self.cert.base, problem)
    }

    fn check(self, alloc: Global) -> Result<CheckedCovered, CheckError> {
        check_covered(alloc, self)
    }
}

/// A saturation that is checked by finding its covers, with which it is handed back.
#[derive(Drop)]
pub(crate) struct Uncovered(pub Saturation);

impl Kind for Uncovered {
    type Checked = CheckedCovered;

    ghost whole = { λ u. IsWholeSaturation u.0 };

    ghost value = { λ u. saturation_value u.0 };

    ghost checked_value = { uncovered_value };

    fn form(&self) -> Form {
        Form::Saturation
    }

    fn difference(&mut self, problem: Option<&Problem>) -> Result<Option<usize>, Memory> {
        difference(&mut self.0.base, problem)
    }

    fn check(self, alloc: Global) -> Result<CheckedCovered, CheckError> {
        named_is_valid();
        let covered = cover(alloc, self.0)?;
        check_covered(alloc, covered)
    }
}
