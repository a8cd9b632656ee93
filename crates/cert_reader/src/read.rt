// A whole text: its first lines, its items and its end, and the certificate that they give.
ghost use Rattle.std.specs.Prelude.{◌≡◌, ◌+◌, ◌<◌, ◌^◌, List, ℕ, [], length, IfOk, IfErr, IsTrue};
ghost use Rattle.std.specs.Result.{IsErrOf};
ghost use Rattle.inst_logic.specs.Printing.{is_readable_name, name_text};
ghost use Rattle.cert_format.specs.LineMachine.{Header};
ghost use Rattle.cert_format.specs.Names.{IsNameText};
ghost use Rattle.cert_format.specs.ValueLines.{IsCertificateText};
ghost use Rattle.inst_logic.specs.WellFormed.{is_constant};
ghost use Rattle.cert_format.specs.Formats.{is_known};
ghost use Rattle.cert_items.specs.Items.{shape_of};
ghost use Rattle.cert_reader.specs.Bodies.{header, refutation_in, saturation_in, HasRead, IsComplete};
ghost use Rattle.cert_reader.specs.Groups.{items_of, refuted_by, saturated_by, AreGroups};
ghost use Rattle.cert_reader.specs.Reads.{HasVersion, IsCause, IsSyntaxAt, IsTextOf, IsVersion, IsWholeCertificate, value_of};
ghost use Rattle.cert_reader.specs.Starts.{HasBegun};
ghost use Rattle.cert_reader.specs.declared.error.CertError.TheVariants.{Syntax, Version};

use crate::body::{Ending, read_items};
use crate::certificate::{Certificate, ReadCert};
use crate::error::CertError;
use crate::groups::Groups;
use crate::lines::constant;
use crate::start::{Start, begin};
use cert_items::symbol::name_of;
use cert_items::{ItemReader, TextShape};
use cert_values::{Base, Covered, FirstRefutation, Refutation, Saturation};
use inst_logic::{Kind, Memory, Name, Sym};
use std::alloc::Global;
use term_bank::Bank;

// What was read of the items of a text.
#[derive(Drop)]
struct Content {
    bank: Bank,
    groups: Groups,
}

// The refutation of these items and this constant, in this format.
fn refutation(content: Content, bot: Sym, format: u64) -> Certificate
    ensures { result ≡ refuted_by format content.bank content.groups bot }
{
    let Content { bank, groups } = content;
    let Groups {
        inputs,
        names,
        axioms,
        members,
        grounds,
        lines,
        steps,
        ..
    } = groups;
    let base = Base {
        bank,
        inputs,
        names,
        axioms,
        members,
    };
    if format == 1 {
        Certificate::First(FirstRefutation {
            base,
            bot,
            grounds,
            steps,
        })
    } else {
        Certificate::Refutation(Refutation {
            base,
            bot,
            grounds: lines,
            steps,
        })
    }
}

// The saturation of these items, in this format.
fn saturation(content: Content, format: u64) -> Certificate
    ensures { result ≡ saturated_by format content.bank content.groups }
{
    let Content { bank, groups } = content;
    let Groups {
        inputs,
        names,
        axioms,
        members,
        places,
        shown,
        covers,
        ..
    } = groups;
    let base = Base {
        bank,
        inputs,
        names,
        axioms,
        members,
    };
    let cert = Saturation { base, places };
    if format == 3 {
        Certificate::Covered(Covered {
            cert,
            shown,
            covers,
        })
    } else {
        Certificate::Saturation(cert)
    }
}

// The items of a text of the shape under this name, of which so many lines have been read.
fn content_of(
    alloc: Global,
    shape: TextShape,
    name: &[u8],
    lines: usize,
    bytes: &[u8],
) -> Result<Content, CertError>
    requires counted { lines + length bytes.now < 2 ^ 63 }
    ensures groups { IfOk result (λ c. AreGroups shape c.bank c.groups) }
    ensures complete { (text : List ℕ) (h : Header) → shape_of h ≡ shape → h.name ≡ name.now → HasRead text h [] lines bytes.now → IfOk result (λ c. IsComplete text h (items_of shape c.bank c.groups)) }
    ensures refused { (text : List ℕ) (h : Header) → shape_of h ≡ shape → h.name ≡ name.now → HasRead text h [] lines bytes.now → ¬ HasVersion text → IfErr result (IsCause text) }
{
    let mut reader = ItemReader::new(alloc);
    let mut groups = Groups::new(alloc);
    match read_items(&mut reader, &mut groups, shape, name, lines, bytes) {
        Ok(Ending::Complete) => Ok(Content {
            bank: reader.into_bank(),
            groups,
        }),
        Ok(Ending::BadLine(line)) => Err(CertError::Syntax { line }),
        Err(Memory) => Err(CertError::Memory),
    }
}

// The refutation with this constant in this format under this name, of whose text four lines have been read.
fn read_refutation(
    alloc: Global,
    bot: Sym,
    format: u64,
    name: &[u8],
    bytes: &[u8],
) -> Result<Certificate, CertError>
    requires constant { IsTrue (is_constant bot) }
    requires readable { IsTrue (is_readable_name bot.name) }
    requires known { IsTrue (is_known format) }
    requires counted { 4 + length bytes.now < 2 ^ 63 }
    ensures read { (text : List ℕ) → HasRead text (header (refutation_in format) name.now bot.name) [] 4 bytes.now → IfOk result (λ c. IsTextOf text format name.now (value_of c)) }
    ensures whole { IfOk result IsWholeCertificate }
    ensures refused { (text : List ℕ) → HasRead text (header (refutation_in format) name.now bot.name) [] 4 bytes.now → ¬ HasVersion text → IfErr result (IsCause text) }
{
    let shape = TextShape {
        refutation: true,
        format,
    };
    let content = content_of(alloc, shape, name, 4, bytes)?;
    Ok(refutation(content, bot, format))
}

// The saturation in this format under this name, of whose text three lines have been read.
fn read_saturation(
    alloc: Global,
    format: u64,
    name: &[u8],
    bytes: &[u8],
) -> Result<Certificate, CertError>
    requires known { IsTrue (is_known format) }
    requires counted { 3 + length bytes.now < 2 ^ 63 }
    ensures read { (text : List ℕ) → HasRead text (header (saturation_in format) name.now []) [] 3 bytes.now → IfOk result (λ c. IsTextOf text format name.now (value_of c)) }
    ensures whole { IfOk result IsWholeCertificate }
    ensures refused { (text : List ℕ) → HasRead text (header (saturation_in format) name.now []) [] 3 bytes.now → ¬ HasVersion text → IfErr result (IsCause text) }
{
    let shape = TextShape {
        refutation: false,
        format,
    };
    let content = content_of(alloc, shape, name, 3, bytes)?;
    Ok(saturation(content, format))
}

// The constant whose name is printed so.
fn constant_named(alloc: Global, text: &[u8]) -> Result<Sym, Memory>
    requires { IsNameText text.now }
    ensures name { IfOk result (λ s. text.now ≡ name_text s.name) }
    ensures readable { IfOk result (λ s. IsTrue (is_readable_name s.name)) }
    ensures constant { IfOk result (λ s. IsTrue (is_constant s)) }
{
    let name = name_of(alloc, text)?;
    Ok(Sym {
        kind: Kind::Function,
        name,
        arity: 0,
    })
}

// The refutation in this format under this name, of whose text three lines have been read.
fn begun_refutation(
    alloc: Global,
    format: u64,
    name: &[u8],
    bytes: &[u8],
) -> Result<Certificate, CertError>
    requires known { IsTrue (is_known format) }
    requires counted { 3 + length bytes.now < 2 ^ 63 }
    ensures read { (text : List ℕ) → HasBegun text (refutation_in format) name.now bytes.now → IfOk result (λ c. IsTextOf text format name.now (value_of c)) }
    ensures whole { IfOk result IsWholeCertificate }
    ensures refused { (text : List ℕ) → HasBegun text (refutation_in format) name.now bytes.now → IfErr result (IsCause text) }
{
    match constant(bytes) {
        None => Err(CertError::Syntax { line: 4 }),
        Some((text, rest)) => {
            let bot = constant_named(alloc, text)?;
            read_refutation(alloc, bot, format, name, rest)
        }
    }
}

// The certificate of the shape under this name, of whose text three lines have been read.
fn read_begun(
    alloc: Global,
    shape: TextShape,
    name: &[u8],
    bytes: &[u8],
) -> Result<Certificate, CertError>
    requires known { IsTrue (is_known shape.format) }
    requires counted { 3 + length bytes.now < 2 ^ 63 }
    ensures read { (text : List ℕ) → HasBegun text shape name.now bytes.now → IfOk result (λ c. IsTextOf text shape.format name.now (value_of c)) }
    ensures whole { IfOk result IsWholeCertificate }
    ensures refused { (text : List ℕ) → HasBegun text shape name.now bytes.now → IfErr result (IsCause text) }
{
    if shape.refutation {
        begun_refutation(alloc, shape.format, name, bytes)
    } else {
        read_saturation(alloc, shape.format, name, bytes)
    }
}

/// The certificate whose text this is, over a bank of its own, with the name and the format that the text gives. The text is
/// bytes, and need not be UTF-8. What a certificate says is not checked here: it can be printed, and no more is known of it. The
/// text of a certificate is refused for want of memory alone.
pub fn read_certificate(alloc: Global, text: &[u8]) -> Result<ReadCert, CertError>
    ensures read { IfOk result (λ r. IsTextOf text.now r.format r.name (value_of r.cert)) }
    ensures whole { IfOk result (λ r. IsWholeCertificate r.cert) }
    ensures syntax { (line : ℕ) → IsErrOf result (Syntax line) → IsSyntaxAt text.now line }
    ensures version { (word : List ℕ) → IsErrOf result (Version word) → IsVersion text.now word }
    ensures taken { IsCertificateText text.now → IfErr result (λ why. why ≡ CertError.Memory) }
{
    match begin(text) {
        Start::Bad(line) => Err(CertError::Syntax { line }),
        Start::Other(digits) => {
            let word = Name::of(alloc, digits)?;
            Err(CertError::Version { word })
        }
        Start::Begun(shape, bytes, rest) => {
            let name = Name::of(alloc, bytes)?;
            let cert = read_begun(alloc, shape, bytes, rest)?;
            Ok(ReadCert {
                name,
                format: shape.format,
                cert,
            })
        }
    }
}
