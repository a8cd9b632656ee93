// What the checker says of the certificate of a text, and of what it makes of it: a refutation of the first format is upgraded,
// and a saturation of the second is covered.
ghost use Rattle.std.specs.Prelude.{◌≡◌};
ghost use Rattle.cert_values.specs.Wholes.{IsWholeCovered, IsWholeFirst, IsWholeRefutation, IsWholeSaturation};
ghost use Rattle.cert_reader.specs.Reads.{IsWholeCertificate};

use cert_check::{
    CheckError, CheckedFirst, Complaint, check_covered, check_first, check_refutation,
    check_saturation, cover, upgrade,
};
use cert_reader::{Certificate, ReadCert, read_certificate};
use cert_values::{
    By, ByList, Cover, CoverList, Covered, FirstRefutation, GroundLineList, Refutation, Saturation,
};
use inst_logic::Memory;
use std::alloc::Global;
use term_bank::IdClauseList;
use tptp_write::{push_bytes, push_number};
use unify_core::Side;

fn push_counted(answer: &mut Vec<u8>, word: &str, n: usize) -> Result<(), Memory> {
    push_bytes(answer, word.as_bytes())?;
    push_number(answer, n)
}

fn push_complaint(answer: &mut Vec<u8>, complaint: Complaint) -> Result<(), Memory> {
    match complaint {
        Complaint::Axiom { n } => push_counted(answer, "axiom ", n),
        Complaint::Member { n } => push_counted(answer, "member ", n),
        Complaint::Bot => push_bytes(answer, b"constant"),
        Complaint::Ground { n } => push_counted(answer, "ground ", n),
        Complaint::Step { n } => push_counted(answer, "step ", n),
        Complaint::NotEmpty => push_bytes(answer, b"no empty clause"),
        Complaint::Place { n } => push_counted(answer, "place ", n),
        Complaint::Input { k } => push_counted(answer, "input ", k),
        Complaint::Pair { left, right } => {
            push_counted(answer, "pair ", left)?;
            push_counted(answer, " ", right)
        }
        Complaint::Cover { n } => push_counted(answer, "cover ", n),
    }
}

fn push_refusal(answer: &mut Vec<u8>, e: CheckError) -> Result<(), Memory> {
    match e {
        CheckError::Complaint(complaint) => push_complaint(answer, complaint),
        CheckError::Memory => Err(Memory),
    }
}

// The number of the input or axiom of each ground line, with that of its terms.
fn push_lines(answer: &mut Vec<u8>, lines: &GroundLineList) -> Result<(), Memory> {
    for line in lines.as_slice() {
        push_counted(answer, " g", line.input)?;
        push_counted(answer, "/", line.terms.len())?;
    }
    Ok(())
}

fn push_by(answer: &mut Vec<u8>, by: &By) -> Result<(), Memory> {
    match by {
        By::Tautology => push_bytes(answer, b"t"),
        By::Variant(n) => push_counted(answer, "v", *n),
        By::Part { member, terms } => {
            push_counted(answer, "p", *member)?;
            push_counted(answer, "/", terms.len())
        }
    }
}

fn push_shown(answer: &mut Vec<u8>, shown: &ByList) -> Result<(), Memory> {
    for by in shown.as_slice() {
        push_bytes(answer, b" ")?;
        push_by(answer, by)?;
    }
    Ok(())
}

fn push_cover(answer: &mut Vec<u8>, cover: &Cover) -> Result<(), Memory> {
    push_counted(answer, " ", cover.left)?;
    push_counted(answer, "-", cover.right)?;
    match cover.side {
        Side::Left => push_bytes(answer, b"l")?,
        Side::Right => push_bytes(answer, b"r")?,
    }
    push_by(answer, &cover.by)
}

fn push_covers(answer: &mut Vec<u8>, covers: &CoverList) -> Result<(), Memory> {
    for one in covers.as_slice() {
        push_cover(answer, one)?;
    }
    Ok(())
}

fn push_refutation(alloc: Global, answer: &mut Vec<u8>, cert: Refutation) -> Result<(), Memory>
    requires { IsWholeRefutation cert }
{
    match check_refutation(alloc, cert) {
        Ok(_) => push_bytes(answer, b"valid"),
        Err(e) => push_refusal(answer, e),
    }
}

fn push_grounds(answer: &mut Vec<u8>, cert: &Refutation) -> Result<(), Memory> {
    push_bytes(answer, b"valid")?;
    push_lines(answer, &cert.grounds)?;
    push_bytes(answer, b" ")
}

// The refutation as it is upgraded, and whether it is valid then. It has one way out, since a certificate is dear to let go.
fn push_upgraded(alloc: Global, answer: &mut Vec<u8>, cert: Refutation) -> Result<(), Memory>
    requires { IsWholeRefutation cert }
{
    let told = push_grounds(answer, &cert);
    let judged = push_refutation(alloc, answer, cert);
    match told {
        Ok(()) => judged,
        Err(Memory) => Err(Memory),
    }
}

fn push_upgrade_of(
    alloc: Global,
    answer: &mut Vec<u8>,
    checked: CheckedFirst,
) -> Result<(), Memory> {
    match upgrade(alloc, checked) {
        Ok(cert) => push_upgraded(alloc, answer, cert),
        Err(Memory) => Err(Memory),
    }
}

fn push_first(alloc: Global, answer: &mut Vec<u8>, cert: FirstRefutation) -> Result<(), Memory>
    requires { IsWholeFirst cert }
{
    match check_first(alloc, cert) {
        Ok(checked) => push_upgrade_of(alloc, answer, checked),
        Err(e) => push_refusal(answer, e),
    }
}

fn push_saturation(alloc: Global, answer: &mut Vec<u8>, cert: Saturation) -> Result<(), Memory>
    requires { IsWholeSaturation cert }
{
    match check_saturation(alloc, cert) {
        Ok(_) => push_bytes(answer, b"valid"),
        Err(e) => push_refusal(answer, e),
    }
}

fn push_covered(alloc: Global, answer: &mut Vec<u8>, cert: Covered) -> Result<(), Memory>
    requires { IsWholeCovered cert }
{
    match check_covered(alloc, cert) {
        Ok(_) => push_bytes(answer, b"valid"),
        Err(e) => push_refusal(answer, e),
    }
}

fn push_names(answer: &mut Vec<u8>, cert: &Covered) -> Result<(), Memory> {
    push_bytes(answer, b"covered")?;
    push_shown(answer, &cert.shown)?;
    push_covers(answer, &cert.covers)?;
    push_bytes(answer, b" ")
}

// What covers the saturation, and whether that is accepted.
fn push_named(alloc: Global, answer: &mut Vec<u8>, cert: Covered) -> Result<(), Memory>
    requires { IsWholeCovered cert }
{
    let told = push_names(answer, &cert);
    let judged = push_covered(alloc, answer, cert);
    match told {
        Ok(()) => judged,
        Err(Memory) => Err(Memory),
    }
}

fn push_cover_of(alloc: Global, answer: &mut Vec<u8>, cert: Saturation) -> Result<(), Memory>
    requires { IsWholeSaturation cert }
{
    match cover(alloc, cert) {
        Ok(named) => push_named(alloc, answer, named),
        Err(e) => push_refusal(answer, e),
    }
}

// What shows the inputs and axioms is taken away.
fn unshown(alloc: Global, cert: Covered) -> Covered
    requires { IsWholeCovered cert }
    ensures { IsWholeCovered result }
{
    let Covered { cert, covers, .. } = cert;
    Covered {
        cert,
        shown: ByList::new(alloc),
        covers,
    }
}

// The inputs are taken away.
fn without_inputs(alloc: Global, cert: Covered) -> Covered
    requires { IsWholeCovered cert }
    ensures { IsWholeCovered result }
{
    let mut cert = cert;
    cert.cert.base.inputs = IdClauseList::new(alloc);
    cert
}

/// What is done to the saturation of a text before it is checked.
#[derive(Clone, Copy)]
pub enum Change {
    None,
    Unshown,
    WithoutInputs,
}

fn push_changed(
    alloc: Global,
    answer: &mut Vec<u8>,
    cert: Covered,
    change: Change,
) -> Result<(), Memory>
    requires { IsWholeCovered cert }
{
    let cert = match change {
        Change::None => cert,
        Change::Unshown => unshown(alloc, cert),
        Change::WithoutInputs => without_inputs(alloc, cert),
    };
    push_covered(alloc, answer, cert)
}

fn push_read(
    alloc: Global,
    answer: &mut Vec<u8>,
    read: ReadCert,
    change: Change,
) -> Result<(), Memory>
    requires { IsWholeCertificate read.cert }
{
    let ReadCert { cert, format, .. } = read;
    match cert {
        Certificate::First(cert) => push_first(alloc, answer, cert),
        Certificate::Refutation(cert) => push_refutation(alloc, answer, cert),
        Certificate::Saturation(cert) => {
            if format == 1 {
                push_saturation(alloc, answer, cert)
            } else {
                push_cover_of(alloc, answer, cert)
            }
        }
        Certificate::Covered(cert) => push_changed(alloc, answer, cert, change),
    }
}

/// Puts what is said of the certificate of the text at the end of the answer.
pub fn push_judgement(
    alloc: Global,
    answer: &mut Vec<u8>,
    text: &[u8],
    change: Change,
) -> Result<(), Memory> {
    match read_certificate(alloc, text) {
        Ok(read) => push_read(alloc, answer, read, change),
        Err(_) => push_bytes(answer, b"not read"),
    }
}
