// The check of refutations whose ground clauses name their inputs. Nothing else makes a checked one, so who has one needs no
// further proof.
ghost use Rattle.std.specs.Prelude.{◌≡◌, ℕ, IfErr, IfOk, IsTrue, OnOk, All, Any};
ghost use Rattle.inst_logic.specs.Clauses.{IsGround, IsInstance};
ghost use Rattle.inst_logic.specs.Truth.{IsRefuted};
ghost use Rattle.inst_logic.specs.WellFormed.{is_constant};
ghost use Rattle.inst_calculus.specs.Axioms.{with_axioms};
ghost use Rattle.cert_format.specs.Certificate.{line_clauses};
ghost use Rattle.cert_format.specs.Validity.{IsRightAxiom, IsRightGroundLine, IsRightMember, IsValidByLines, LinesPass};
ghost use Rattle.cert_values.specs.Values.{refutation_of};
ghost use Rattle.cert_values.specs.Wholes.{IsWholeRefutation, KeepsRefutation};
ghost use Rattle.cert_check.specs.Answers.{IsCheckCause};

use crate::base::{Lemmas, check_base};
use crate::error::CheckError;
use crate::grounds::check_constant;
use crate::steps::{check_steps, numbered_lines};
use cert_format::{Complaint, valid_lines_refute};
use cert_names::first_wrong_line;
use cert_values::Refutation;
use std::alloc::Global;
use std::marker::Model;

/// A refutation that was checked and is valid. Nothing else makes one.
#[derive(Drop)]
pub struct CheckedRefutation {
    cert: Refutation,
}

impl Model for CheckedRefutation {
    ghost use Rattle.cert_values.specs.declared.certificate.Refutation.{Refutation};
    ghost use Rattle.cert_values.specs.Values.{refutation_of};
    ghost use Rattle.cert_values.specs.Wholes.{IsWholeRefutation};
    ghost use Rattle.cert_format.specs.Validity.{IsValidByLines};
    ghost use Rattle.cert_values.specs.contracts.certificate.Refutation as value;
    ghost use Rattle.std.specs.Coded.{codes};

    ghost Value = { Refutation };

    ghost coded = { Prim.hlevel (codes, value.the_row.coded) };

    ghost view = { λ c. c.cert };

    ghost invariant = { λ c. IsWholeRefutation c.cert × IsValidByLines (refutation_of c.cert) };
}

impl CheckedRefutation {
    /// The certificate.
    pub fn cert(&self) -> &Refutation
        ensures is { result.now ≡ self.now }
        ensures whole { IsWholeRefutation self.now }
        ensures valid { IsValidByLines (refutation_of self.now) }
    {
        &self.cert
    }
}

// The first complaint about the ground lines, if there is one: one that is not the instance that it names.
fn check_lines(alloc: Global, cert: &mut Refutation) -> Result<(), CheckError>
    requires whole { IsWholeRefutation cert.old }
    requires axioms { (n : ℕ) → IsRightAxiom (refutation_of cert.old).base n }
    requires members { (n : ℕ) → IsRightMember (refutation_of cert.old).base n }
    requires constant { IsTrue (is_constant cert.old.bot) }
    ensures kept { KeepsRefutation cert.old cert.new }
    ensures whole { OnOk result (IsWholeRefutation cert.new) }
    ensures lines { OnOk result ((n : ℕ) → IsRightGroundLine (refutation_of cert.old) n) }
    ensures complaint { IfErr result (IsCheckCause (LinesPass (refutation_of cert.old))) }
{
    let bank = &mut cert.base.bank;
    let inputs = &cert.base.inputs;
    if let Some(n) = first_wrong_line(alloc, bank, inputs, &cert.base.axioms, &cert.grounds)? {
        return Err(CheckError::Complaint(Complaint::Ground { n }));
    }
    Ok(())
}

// The first complaint, if there is one.
fn check(alloc: Global, cert: &mut Refutation) -> Result<(), CheckError>
    requires { IsWholeRefutation cert.old }
    ensures kept { KeepsRefutation cert.old cert.new }
    ensures whole { OnOk result (IsWholeRefutation cert.new) }
    ensures valid { OnOk result (IsValidByLines (refutation_of cert.old)) }
    ensures complaint { IfErr result (IsCheckCause (LinesPass (refutation_of cert.old))) }
{
    check_base(alloc, &mut cert.base, Lemmas::Allowed)?;
    check_constant(&cert.bot)?;
    check_lines(alloc, cert)?;
    let given = numbered_lines(alloc, &cert.grounds)?;
    check_steps(alloc, &cert.base.bank, &given, &cert.steps)?;
    Ok(())
}

/// Checks the certificate and owns it from then on. After a refusal it is dropped. Time: a unification for each member that is an
/// instance or a part of one, an instance for each ground line, and for each step its literals and those of the clauses that its
/// hints cite.
pub fn check_refutation(alloc: Global, cert: Refutation) -> Result<CheckedRefutation, CheckError>
    requires { IsWholeRefutation cert }
    ensures kept { IfOk result (KeepsRefutation cert) }
    ensures same { IfOk result (λ c. refutation_of c ≡ refutation_of cert) }
    ensures valid { IfOk result (λ _. IsValidByLines (refutation_of cert)) }
    ensures instances { IfOk result (λ _. All (λ g. IsGround g × Any (IsInstance g) (with_axioms (refutation_of cert).base.inputs)) (line_clauses (refutation_of cert).grounds)) }
    ensures refuted { IfOk result (λ _. IsRefuted (line_clauses (refutation_of cert).grounds)) }
    ensures complaint { IfErr result (IsCheckCause (LinesPass (refutation_of cert))) }
{
    let mut cert = cert;
    check(alloc, &mut cert)?;
    valid_lines_refute();
    Ok(CheckedRefutation { cert })
}
