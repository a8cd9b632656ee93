// Certificates in the format in which certificates are written. A refutation of the first format gets the inputs and terms of its
// ground clauses, a saturation what covers its clauses, and both are checked again. Those that have these are written as they are.
ghost use Rattle.std.specs.Prelude.{◌≡◌, ℕ, IfOk, option_copied};
ghost use Rattle.std.specs.Option.{ForSome};
ghost use Rattle.inst_logic.specs.WellFormed.{AreFormedClauses};
ghost use Rattle.cert_format.specs.Printable.{IsPrintable};
ghost use Rattle.cert_format.specs.Text.{written_text};
ghost use Rattle.cert_format.specs.Validity.{IsValid, IsValidByLines};
ghost use Rattle.cert_reader.specs.Reads.{IsWholeCertificate, value_of};
ghost use Rattle.cert_values.specs.Values.{refutation_of};
ghost use Rattle.cert_values.specs.Wholes.{IsWholeRefutation};
ghost use Rattle.cert_front.specs.Kinds.{refutation_value};
ghost use Rattle.cert_front.specs.Rewritings.{IsNewText, IsRewriting};

use crate::accepted::accept_refutation;
use crate::judgement::{Judgement, judge};
use crate::kind::{Kind, Uncovered};
use crate::words::Form;
use cert_check::{CheckedCovered, CheckedFirst, CheckedRefutation, upgrade};
use cert_format::covers::names_are_printable;
use cert_reader::Certificate;
use cert_text::{covered_text, refutation_text};
use cert_values::{
    Covered, FirstRefutation, Refutation, Saturation, covered_numbers, refutation_numbers,
};
use inst_logic::{ByteList, Memory, Problem};
use std::alloc::Global;

/// What comes of the rewriting of a certificate.
#[derive(Drop)]
pub enum Rewriting {
    /// Its text in the format in which certificates are written, under its own name.
    Text(ByteList),
    /// What it is found to be, with its form: it is not valid, or not one of the problem.
    Refused(Form, Judgement),
}

// A kind of certificates that have a text in the format in which certificates are written.
pub(crate) trait Rewritable: Kind {
    /// This text of a checked one that is valid.
    fn new_text(alloc: Global, name: &[u8], checked: Self::Checked) -> Result<ByteList, Memory>
        requires valid { IsValid (Self.checked_value checked) }
        requires printable { (format : ℕ) × IsPrintable format (Self.checked_value checked) }
        ensures { IfOk result (IsNewText name.now (Self.checked_value checked)) };
}

// The text of a valid refutation.
fn valid_text(alloc: Global, name: &[u8], cert: Refutation) -> Result<ByteList, Memory>
    requires whole { IsWholeRefutation cert }
    requires valid { IsValidByLines (refutation_of cert) }
    ensures { IfOk result (λ text. text ≡ written_text name.now (refutation_value cert)) }
{
    let checked = accept_refutation(alloc, cert)?;
    let text = refutation_text(alloc, name, &checked);
    // Let go by a call, here and below: where the scope of one ends, the proof takes long.
    drop(checked);
    text
}

impl Rewritable for FirstRefutation {
    fn new_text(alloc: Global, name: &[u8], checked: CheckedFirst) -> Result<ByteList, Memory> {
        let cert = upgrade(alloc, checked)?;
        refutation_numbers(&cert);
        names_are_printable();
        valid_text(alloc, name, cert)
    }
}

impl Rewritable for Refutation {
    fn new_text(
        alloc: Global,
        name: &[u8],
        checked: CheckedRefutation,
    ) -> Result<ByteList, Memory> {
        let text = refutation_text(alloc, name, &checked);
        drop(checked);
        text
    }
}

impl Rewritable for Uncovered {
    fn new_text(alloc: Global, name: &[u8], checked: CheckedCovered) -> Result<ByteList, Memory> {
        covered_numbers(checked.cert());
        names_are_printable();
        let text = covered_text(alloc, name, &checked);
        drop(checked);
        text
    }
}

impl Rewritable for Covered {
    fn new_text(alloc: Global, name: &[u8], checked: CheckedCovered) -> Result<ByteList, Memory> {
        let text = covered_text(alloc, name, &checked);
        drop(checked);
        text
    }
}

// What comes of the certificate.
pub(crate) fn rewrite_as<C: Rewritable>(
    alloc: Global,
    name: &[u8],
    cert: C,
    problem: Option<&Problem>,
) -> Result<Rewriting, Memory>
    requires whole { C.whole cert }
    requires problem { ForSome problem (λ p. AreFormedClauses p.now.clauses) }
    requires printable { (format : ℕ) × IsPrintable format (C.value cert) }
    ensures { IfOk result (IsRewriting (option_copied problem.entry) name.now (C.value cert)) }
{
    let form = cert.form();
    match judge(alloc, cert, problem) {
        Ok(Ok(checked)) => {
            let text = C::new_text(alloc, name, checked)?;
            Ok(Rewriting::Text(text))
        }
        Ok(Err(judgement)) => Ok(Rewriting::Refused(form, judgement)),
        Err(Memory) => Err(Memory),
    }
}

/// The certificate in the format in which certificates are written, under this name, where it is valid and of the problem, if one
/// is given; and what it is found to be otherwise.
pub fn rewrite(
    alloc: Global,
    name: &[u8],
    certificate: Certificate,
    problem: Option<&Problem>,
) -> Result<Rewriting, Memory>
    requires whole { IsWholeCertificate certificate }
    requires problem { ForSome problem (λ p. AreFormedClauses p.now.clauses) }
    requires printable { (format : ℕ) × IsPrintable format (value_of certificate) }
    ensures { IfOk result (IsRewriting (option_copied problem.entry) name.now (value_of certificate)) }
{
    match certificate {
        Certificate::First(cert) => rewrite_as(alloc, name, cert, problem),
        Certificate::Refutation(cert) => rewrite_as(alloc, name, cert, problem),
        Certificate::Saturation(cert) => rewrite_as(alloc, name, Uncovered(cert), problem),
        Certificate::Covered(cert) => rewrite_as(alloc, name, cert, problem),
    }
}
