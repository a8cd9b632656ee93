// The check of saturations. Nothing else makes a checked one, so who has one needs no further proof.
ghost use Rattle.std.specs.Prelude.{◌≡◌, false, true, IfErr, IfOk, OnErr, OnOk, All};
ghost use Rattle.inst_logic.specs.LiteralView.{literal};
ghost use Rattle.inst_logic.specs.WellFormed.{IsAtom};
ghost use Rattle.inst_calculus.specs.Axioms.{with_axioms};
ghost use Rattle.inst_calculus.specs.Models.{Makes};
ghost use Rattle.inst_calculus.specs.Saturation.{IsSaturated};
ghost use Rattle.cert_format.specs.Certificate.{selected_members};
ghost use Rattle.cert_format.specs.Validity.{IsValidSaturation, SaturationPasses};
ghost use Rattle.term_bank.specs.Forest.{IsAt};
ghost use Rattle.cert_values.specs.Values.{saturation_of};
ghost use Rattle.cert_values.specs.Wholes.{IsWholeSaturation, KeepsSaturation};
ghost use Rattle.cert_check.specs.Answers.{IsCheckCause};

use crate::covered::cover;
use crate::error::CheckError;
use cert_format::covers::named_is_valid;
use cert_format::laws::valid_saturations_are_models;
use cert_values::{Covered, Saturation};
use inst_logic::{Literal, Memory};
use std::alloc::Global;
use std::marker::Model;
use term_bank::TermId;

/// A saturation that was checked and is valid. Nothing else makes one.
#[derive(Drop)]
pub struct CheckedSaturation {
    cert: Saturation,
}

impl Model for CheckedSaturation {
    ghost use Rattle.cert_values.specs.declared.certificate.Saturation.{Saturation};
    ghost use Rattle.cert_values.specs.Values.{saturation_of};
    ghost use Rattle.cert_values.specs.Wholes.{IsWholeSaturation};
    ghost use Rattle.cert_format.specs.Validity.{IsValidSaturation};
    ghost use Rattle.cert_values.specs.contracts.certificate.Saturation as value;
    ghost use Rattle.std.specs.Coded.{codes};

    ghost Value = { Saturation };

    ghost coded = { Prim.hlevel (codes, value.the_row.coded) };

    ghost view = { λ c. c.cert };

    ghost invariant = { λ c. IsWholeSaturation c.cert × IsValidSaturation (saturation_of c.cert) };
}

impl CheckedSaturation {
    /// The certificate.
    pub fn cert(&self) -> &Saturation
        ensures is { result.now ≡ self.now }
        ensures whole { IsWholeSaturation self.now }
        ensures valid { IsValidSaturation (saturation_of self.now) }
    {
        &self.cert
    }

    /// The id of the literal's atom in the certificate's bank, which may grow. After want of memory the certificate is what
    /// it was, and every later call wants memory.
    pub fn atom(&mut self, l: &Literal) -> Result<TermId, Memory>
        requires { IsAtom (literal l.now).atom }
        ensures at { IfOk result (λ id. IsAt self.new.base.bank id (literal l.now).atom) }
        ensures kept { KeepsSaturation self.old self.new }
        ensures same { saturation_of self.new ≡ saturation_of self.old }
        ensures ok { OnOk result ((self.old.base.bank.spent ≡ false) × (self.new.base.bank.spent ≡ false)) }
        ensures err { OnErr result (self.new.base.bank.spent ≡ true) }
    {
        self.cert.base.bank.atom(l)
    }
}

/// Checks the certificate and owns it from then on. After a refusal it is dropped. What covers each clause is found as `cover` does,
/// and let go. Time: a few look-ups for each member; a comparison for any two fingerprints of opposite signs that agree in the
/// symbols at the tops of the arguments; a unification where the whole fingerprints of two members allow it; and where they unify,
/// look-ups of the instances, and tests of subsumption by shorter members where these do not suffice.
pub fn check_saturation(alloc: Global, cert: Saturation) -> Result<CheckedSaturation, CheckError>
    requires { IsWholeSaturation cert }
    ensures kept { IfOk result (KeepsSaturation cert) }
    ensures same { IfOk result (λ c. saturation_of c ≡ saturation_of cert) }
    ensures valid { IfOk result (λ _. IsValidSaturation (saturation_of cert)) }
    ensures saturated { IfOk result (λ _. IsSaturated (selected_members (saturation_of cert)) (with_axioms (saturation_of cert).base.inputs)) }
    ensures makes { IfOk result (λ _. All (Makes (selected_members (saturation_of cert))) (with_axioms (saturation_of cert).base.inputs)) }
    ensures complaint { IfErr result (IsCheckCause (SaturationPasses (saturation_of cert))) }
{
    let Covered { cert, .. } = cover(alloc, cert)?;
    named_is_valid();
    valid_saturations_are_models();
    Ok(CheckedSaturation { cert })
}
