// The check of refutations of the first format. Nothing else makes a checked one, so who has one needs no further proof.
ghost use Rattle.std.specs.Prelude.{◌≡◌, ℕ, IfErr, IfOk, OnOk, IsTrue, All, Any};
ghost use Rattle.inst_logic.specs.Clauses.{IsGround, IsInstance};
ghost use Rattle.inst_logic.specs.Truth.{IsRefuted};
ghost use Rattle.inst_calculus.specs.Axioms.{with_axioms};
ghost use Rattle.inst_logic.specs.WellFormed.{is_constant};
ghost use Rattle.cert_format.specs.Validity.{IsRightAxiom, IsRightFirstMember, IsRightGround, IsValidRefutation, RefutationPasses};
ghost use Rattle.cert_values.specs.Values.{first_of};
ghost use Rattle.cert_values.specs.Wholes.{IsWholeFirst, KeepsFirst};
ghost use Rattle.cert_check.specs.Answers.{IsCheckCause};

use crate::base::{Lemmas, check_base};
use crate::error::CheckError;
use crate::grounds::{check_constant, first_wrong_ground};
use crate::steps::{check_steps, numbered_clauses};
use cert_format::{Complaint, valid_refutations_refute};
use cert_values::FirstRefutation;
use std::alloc::Global;
use std::marker::Model;

/// A refutation of the first format that was checked and is valid. Nothing else makes one.
#[derive(Drop)]
pub struct CheckedFirst {
    cert: FirstRefutation,
}

impl Model for CheckedFirst {
    ghost use Rattle.cert_values.specs.declared.certificate.FirstRefutation.{FirstRefutation};
    ghost use Rattle.cert_values.specs.Values.{first_of};
    ghost use Rattle.cert_values.specs.Wholes.{IsWholeFirst};
    ghost use Rattle.cert_format.specs.Validity.{IsValidRefutation};
    ghost use Rattle.cert_values.specs.contracts.certificate.FirstRefutation as value;
    ghost use Rattle.std.specs.Coded.{codes};

    ghost Value = { FirstRefutation };

    ghost coded = { Prim.hlevel (codes, value.the_row.coded) };

    ghost view = { λ c. c.cert };

    ghost invariant = { λ c. IsWholeFirst c.cert × IsValidRefutation (first_of c.cert) };
}

impl CheckedFirst {
    /// The certificate.
    pub fn cert(&self) -> &FirstRefutation
        ensures is { result.now ≡ self.now }
        ensures whole { IsWholeFirst self.now }
        ensures valid { IsValidRefutation (first_of self.now) }
    {
        &self.cert
    }

    // The certificate itself, which is valid.
    pub(crate) fn into_cert(self) -> FirstRefutation
        ensures is { result ≡ self }
        ensures whole { IsWholeFirst result }
        ensures valid { IsValidRefutation (first_of result) }
    {
        self.cert
    }
}

// The first complaint about the ground clauses, if there is one: one that is not its member under the constant.
fn check_grounds(alloc: Global, cert: &mut FirstRefutation) -> Result<(), CheckError>
    requires whole { IsWholeFirst cert.old }
    requires axioms { (n : ℕ) → IsRightAxiom (first_of cert.old).base n }
    requires members { (n : ℕ) → IsRightFirstMember (first_of cert.old).base n }
    requires constant { IsTrue (is_constant cert.old.bot) }
    ensures kept { KeepsFirst cert.old cert.new }
    ensures whole { OnOk result (IsWholeFirst cert.new) }
    ensures grounds { OnOk result ((n : ℕ) → IsRightGround (first_of cert.old) n) }
    ensures complaint { IfErr result (IsCheckCause (RefutationPasses (first_of cert.old))) }
{
    if let Some(n) = first_wrong_ground(alloc, &mut cert.base, &cert.bot, &cert.grounds)? {
        return Err(CheckError::Complaint(Complaint::Ground { n }));
    }
    Ok(())
}

// The first complaint, if there is one.
fn check(alloc: Global, cert: &mut FirstRefutation) -> Result<(), CheckError>
    requires { IsWholeFirst cert.old }
    ensures kept { KeepsFirst cert.old cert.new }
    ensures whole { OnOk result (IsWholeFirst cert.new) }
    ensures valid { OnOk result (IsValidRefutation (first_of cert.old)) }
    ensures complaint { IfErr result (IsCheckCause (RefutationPasses (first_of cert.old))) }
{
    check_base(alloc, &mut cert.base, Lemmas::Refused)?;
    check_constant(&cert.bot)?;
    check_grounds(alloc, cert)?;
    let given = numbered_clauses(alloc, &cert.grounds)?;
    check_steps(alloc, &cert.base.bank, &given, &cert.steps)?;
    Ok(())
}

/// Checks the certificate and owns it from then on. After a refusal it is dropped. A member that is a lemma is refused. Time: a
/// unification for each member that is an instance, and for each step its literals and those of the clauses that its hints cite.
pub fn check_first(alloc: Global, cert: FirstRefutation) -> Result<CheckedFirst, CheckError>
    requires { IsWholeFirst cert }
    ensures kept { IfOk result (KeepsFirst cert) }
    ensures same { IfOk result (λ c. first_of c ≡ first_of cert) }
    ensures valid { IfOk result (λ _. IsValidRefutation (first_of cert)) }
    ensures instances { IfOk result (λ _. All (λ g. IsGround g × Any (IsInstance g) (with_axioms (first_of cert).base.inputs)) (first_of cert).grounds) }
    ensures refuted { IfOk result (λ _. IsRefuted (first_of cert).grounds) }
    ensures complaint { IfErr result (IsCheckCause (RefutationPasses (first_of cert))) }
{
    let mut cert = cert;
    check(alloc, &mut cert)?;
    valid_refutations_refute();
    Ok(CheckedFirst { cert })
}
