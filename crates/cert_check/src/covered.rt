// Saturations that name what covers each clause: the covers are found for a saturation, and compared where they are named.
// Nothing else makes a checked one, so who has one needs no further proof.
ghost use Rattle.std.specs.Prelude.{◌≡◌, ℕ, [], false, true, IfErr, IfOk, OnErr, OnOk, All};
ghost use Rattle.inst_logic.specs.LiteralView.{literal};
ghost use Rattle.inst_logic.specs.WellFormed.{IsAtom};
ghost use Rattle.inst_calculus.specs.Axioms.{with_axioms};
ghost use Rattle.inst_calculus.specs.Models.{Makes};
ghost use Rattle.inst_calculus.specs.Saturation.{IsSaturated};
ghost use Rattle.cert_format.specs.Certificate.{selected_members};
ghost use Rattle.cert_format.specs.Validity.{CoversPass, IsNamed, IsShownInput, IsValidBase, SaturationPasses};
ghost use Rattle.term_bank.specs.Forest.{IsAt};
ghost use Rattle.cert_values.specs.Values.{base_of, covered_of, saturation_of};
ghost use Rattle.cert_values.specs.Wholes.{HasPlaces, IsWholeCovered, IsWholeSaturation, KeepsCovered, KeepsSaturation};
ghost use Rattle.cert_check.specs.Answers.{IsCheckCause};
ghost use Rattle.cert_index.specs.Chains.{AreMeetings};
ghost use Rattle.cert_check.specs.Compared.{IsComparable};
ghost use Rattle.cert_index.specs.Lookups.{IsReady};

use crate::base::{Lemmas, check_base};
use crate::compare::{Progress, compare_pairs, wrong_cover};
use crate::covering::cover_pairs;
use crate::error::CheckError;
use crate::places::wrong_place;
use crate::shown::{show_inputs, wrong_shown};
use cert_format::Complaint;
use cert_format::covers::named_is_valid;
use cert_format::laws::valid_saturations_are_models;
use cert_index::{Lookup, Meetings, find_lookup, meetings_of};
use cert_values::{ByList, CoverList, Covered, Saturation};
use inst_logic::{Literal, Memory};
use std::alloc::Global;
use std::marker::Model;
use term_bank::TermId;

/// A saturation with its covers that was checked: each clause is covered by what is named for it. Nothing else makes one.
#[derive(Drop)]
pub struct CheckedCovered {
    cert: Covered,
}

impl Model for CheckedCovered {
    ghost use Rattle.cert_values.specs.declared.certificate.Covered.{Covered};
    ghost use Rattle.cert_values.specs.Values.{covered_of};
    ghost use Rattle.cert_values.specs.Wholes.{IsWholeCovered};
    ghost use Rattle.cert_format.specs.Validity.{IsNamed};
    ghost use Rattle.cert_values.specs.contracts.certificate.Covered as value;
    ghost use Rattle.std.specs.Coded.{codes};

    ghost Value = { Covered };

    ghost coded = { Prim.hlevel (codes, value.the_row.coded) };

    ghost view = { λ c. c.cert };

    ghost invariant = { λ c. IsWholeCovered c.cert × IsNamed (covered_of c.cert) };
}

impl CheckedCovered {
    /// The certificate.
    pub fn cert(&self) -> &Covered
        ensures is { result.now ≡ self.now }
        ensures whole { IsWholeCovered self.now }
        ensures named { IsNamed (covered_of self.now) }
    {
        &self.cert
    }

    /// The id of the literal's atom in the certificate's bank, which may grow. After want of memory the certificate is what
    /// it was, and every later call wants memory.
    pub fn atom(&mut self, l: &Literal) -> Result<TermId, Memory>
        requires { IsAtom (literal l.now).atom }
        ensures at { IfOk result (λ id. IsAt self.new.cert.base.bank id (literal l.now).atom) }
        ensures kept { KeepsCovered self.old self.new }
        ensures same { covered_of self.new ≡ covered_of self.old }
        ensures ok { OnOk result ((self.old.cert.base.bank.spent ≡ false) × (self.new.cert.base.bank.spent ≡ false)) }
        ensures err { OnErr result (self.new.cert.base.bank.spent ≡ true) }
    {
        self.cert.cert.base.bank.atom(l)
    }
}

// Finds what justifies the inputs and axioms, and then what covers what is due.
fn name_with(alloc: Global, cert: &mut Covered, lookup: &Lookup) -> Result<(), CheckError>
    requires whole { IsWholeCovered cert.old }
    requires ready { IsReady cert.old.cert lookup.now }
    requires none { (cert.old.shown ≡ []) × (cert.old.covers ≡ []) }
    ensures kept { KeepsSaturation cert.old.cert cert.new.cert }
    ensures whole { OnOk result (IsWholeCovered cert.new) }
    ensures named { OnOk result (IsNamed (covered_of cert.new)) }
    ensures complaint { IfErr result (IsCheckCause (SaturationPasses (saturation_of cert.old.cert))) }
{
    if let Some(k) = show_inputs(alloc, cert, lookup)? {
        return Err(CheckError::Complaint(Complaint::Input { k }));
    }
    if let Some((left, right)) = cover_pairs(alloc, cert, lookup)? {
        return Err(CheckError::Complaint(Complaint::Pair { left, right }));
    }
    Ok(())
}

// Finds what justifies the inputs and what covers what is due, with one index for both.
fn name_selection(alloc: Global, cert: &mut Covered) -> Result<(), CheckError>
    requires whole { IsWholeCovered cert.old }
    requires base { IsValidBase (base_of cert.old.cert.base) }
    requires placed { HasPlaces (saturation_of cert.old.cert) }
    requires none { (cert.old.shown ≡ []) × (cert.old.covers ≡ []) }
    ensures kept { KeepsSaturation cert.old.cert cert.new.cert }
    ensures whole { OnOk result (IsWholeCovered cert.new) }
    ensures named { OnOk result (IsNamed (covered_of cert.new)) }
    ensures complaint { IfErr result (IsCheckCause (SaturationPasses (saturation_of cert.old.cert))) }
{
    let lookup = find_lookup(alloc, &cert.cert)?;
    name_with(alloc, cert, &lookup)
}

// Checks the saturation, and finds what covers each clause.
fn name_all(alloc: Global, cert: &mut Covered) -> Result<(), CheckError>
    requires whole { IsWholeCovered cert.old }
    requires none { (cert.old.shown ≡ []) × (cert.old.covers ≡ []) }
    ensures kept { KeepsSaturation cert.old.cert cert.new.cert }
    ensures whole { OnOk result (IsWholeCovered cert.new) }
    ensures named { OnOk result (IsNamed (covered_of cert.new)) }
    ensures complaint { IfErr result (IsCheckCause (SaturationPasses (saturation_of cert.old.cert))) }
{
    check_base(alloc, &mut cert.cert.base, Lemmas::Allowed)?;
    if let Some(n) = wrong_place(&cert.cert) {
        return Err(CheckError::Complaint(Complaint::Place { n }));
    }
    name_selection(alloc, cert)
}

/// Checks the saturation as `check_saturation` does, and finds what covers each clause. After a refusal it is dropped. Each
/// instance that is due is built once, and is the clause of its cover.
pub fn cover(alloc: Global, cert: Saturation) -> Result<Covered, CheckError>
    requires { IsWholeSaturation cert }
    ensures kept { IfOk result (λ c. KeepsSaturation cert c.cert) }
    ensures same { IfOk result (λ c. saturation_of c.cert ≡ saturation_of cert) }
    ensures named { IfOk result (λ c. IsNamed (covered_of c)) }
    ensures whole { IfOk result IsWholeCovered }
    ensures complaint { IfErr result (IsCheckCause (SaturationPasses (saturation_of cert))) }
{
    let mut named = Covered {
        cert,
        shown: ByList::new(alloc),
        covers: CoverList::new(alloc),
    };
    name_all(alloc, &mut named)?;
    Ok(named)
}

// Compares what is named for the pairs.
fn compare_covers(alloc: Global, cert: &mut Covered, meetings: &Meetings) -> Result<(), CheckError>
    requires comparable { IsComparable cert.old }
    requires meetings { AreMeetings (saturation_of cert.old.cert) meetings.now }
    requires shown { (k : ℕ) → IsShownInput (covered_of cert.old) k }
    ensures kept { KeepsCovered cert.old cert.new }
    ensures whole { OnOk result (IsWholeCovered cert.new) }
    ensures named { OnOk result (IsNamed (covered_of cert.old)) }
    ensures complaint { IfErr result (IsCheckCause (CoversPass (covered_of cert.old))) }
{
    let mut progress = Progress {
        count: 0,
        wrong: false,
    };
    if let Some((left, right)) = compare_pairs(alloc, cert, meetings, &mut progress)? {
        return Err(CheckError::Complaint(Complaint::Pair { left, right }));
    }
    if let Some(n) = wrong_cover(progress, cert.covers.as_slice()) {
        return Err(CheckError::Complaint(Complaint::Cover { n }));
    }
    Ok(())
}

// Finds which members may meet, and compares what is named for the pairs.
fn compare_due(alloc: Global, cert: &mut Covered) -> Result<(), CheckError>
    requires comparable { IsComparable cert.old }
    requires shown { (k : ℕ) → IsShownInput (covered_of cert.old) k }
    ensures kept { KeepsCovered cert.old cert.new }
    ensures whole { OnOk result (IsWholeCovered cert.new) }
    ensures named { OnOk result (IsNamed (covered_of cert.old)) }
    ensures complaint { IfErr result (IsCheckCause (CoversPass (covered_of cert.old))) }
{
    let meetings = meetings_of(alloc, &cert.cert)?;
    compare_covers(alloc, cert, &meetings)
}

// Compares what is named for the inputs and axioms, and then for the pairs.
fn compare_names(alloc: Global, cert: &mut Covered) -> Result<(), CheckError>
    requires comparable { IsComparable cert.old }
    ensures kept { KeepsCovered cert.old cert.new }
    ensures whole { OnOk result (IsWholeCovered cert.new) }
    ensures named { OnOk result (IsNamed (covered_of cert.old)) }
    ensures complaint { IfErr result (IsCheckCause (CoversPass (covered_of cert.old))) }
{
    if let Some(k) = wrong_shown(alloc, cert)? {
        return Err(CheckError::Complaint(Complaint::Input { k }));
    }
    compare_due(alloc, cert)
}

// The first complaint, if there is one.
fn check(alloc: Global, cert: &mut Covered) -> Result<(), CheckError>
    requires { IsWholeCovered cert.old }
    ensures kept { KeepsCovered cert.old cert.new }
    ensures whole { OnOk result (IsWholeCovered cert.new) }
    ensures named { OnOk result (IsNamed (covered_of cert.old)) }
    ensures complaint { IfErr result (IsCheckCause (CoversPass (covered_of cert.old))) }
{
    check_base(alloc, &mut cert.cert.base, Lemmas::Allowed)?;
    if let Some(n) = wrong_place(&cert.cert) {
        return Err(CheckError::Complaint(Complaint::Place { n }));
    }
    compare_names(alloc, cert)
}

/// Checks the certificate and owns it from then on. After a refusal it is dropped. Nothing is searched for: each instance that is
/// due is compared, and built only where that does not show it. Where the origins of the named members tell all that is due of
/// two members, these are not unified.
pub fn check_covered(alloc: Global, cert: Covered) -> Result<CheckedCovered, CheckError>
    requires { IsWholeCovered cert }
    ensures kept { IfOk result (KeepsCovered cert) }
    ensures same { IfOk result (λ c. covered_of c ≡ covered_of cert) }
    ensures named { IfOk result (λ _. IsNamed (covered_of cert)) }
    ensures saturated { IfOk result (λ _. IsSaturated (selected_members (covered_of cert).saturation) (with_axioms (covered_of cert).saturation.base.inputs)) }
    ensures makes { IfOk result (λ _. All (Makes (selected_members (covered_of cert).saturation)) (with_axioms (covered_of cert).saturation.base.inputs)) }
    ensures complaint { IfErr result (IsCheckCause (CoversPass (covered_of cert))) }
{
    let mut cert = cert;
    check(alloc, &mut cert)?;
    named_is_valid();
    valid_saturations_are_models();
    Ok(CheckedCovered { cert })
}
