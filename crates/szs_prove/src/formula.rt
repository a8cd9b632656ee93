// The value of a quantified Boolean formula, which the engine decides by the formula's problem. That problem applies no function,
// so no budget is wanted.
ghost use Rattle.std.specs.Prelude.{◌≡◌, ◌++◌, codes, IfOk, IfErr};
ghost use Rattle.cert_format.specs.Printable.{IsTextName};
ghost use Rattle.cert_format.specs.Text.{written_text};
ghost use Rattle.cert_front.specs.Kinds.{covered_value, refutation_value};
ghost use Rattle.dimacs_front.specs.Files.{IsHeld, IsUnread};
ghost use Rattle.outside_io.specs.Told.{Follows};
ghost use Rattle.qbf_logic.specs.Formulas.{IsFormula};
ghost use Rattle.qbf_logic.specs.Translation.{translation, translation_names};
ghost use Rattle.szs_prove.specs.Decisions.{IsDecision, IsVerdict};
ghost use Rattle.szs_prove.specs.Formulas.{IsAnsweredFormula, IsFormulaAnswer, IsFormulaOutcome};

use crate::decision::{Decision, decide};
use crate::verdict_texts::{refutation_text_of, saturation_text_of};
use cert_check::{CheckedCovered, CheckedRefutation};
use dimacs_front::{DimacsError, Qbf, SatError, read_qdimacs};
use inst_logic::{ByteList, Memory, Problem};
use outside_io::{Library, read_whole};
use qbf_front::{answers_from_certificates, problem_of};
use std::alloc::Global;

/// The value of a formula, with the text that shows it: a line, and behind it a certificate of the formula's problem.
#[derive(Drop)]
pub enum FormulaAnswer {
    /// The formula is true under some values of the variables without a quantifier.
    True(ByteList),
    /// It is false under all of them.
    False(ByteList),
}

// The most bytes of a file.
const LIMIT: usize = 16_777_216;

// The line, and behind it the text.
fn behind_line(alloc: Global, line: &[u8], text: &ByteList) -> Result<ByteList, Memory>
    ensures { IfOk result (λ whole. whole ≡ line.now ++ text.now) }
{
    let mut whole = Vec::from_slice(alloc, line)?;
    whole.extend_from_slice(text.as_slice())?;
    Ok(ByteList::from(whole))
}

fn true_text(alloc: Global, file: &str, cert: CheckedCovered) -> Result<ByteList, Memory>
    ensures { IfOk result (λ text. text ≡ codes "s TRUE\n" ++ written_text file.now (covered_value cert)) }
{
    let saturation = saturation_text_of(alloc, file, cert)?;
    let text = behind_line(alloc, b"s TRUE\n", &saturation)?;
    Ok(text)
}

fn false_text(alloc: Global, file: &str, cert: CheckedRefutation) -> Result<ByteList, Memory>
    ensures { IfOk result (λ text. text ≡ codes "s FALSE\n" ++ written_text file.now (refutation_value cert)) }
{
    let refutation = refutation_text_of(alloc, file, cert)?;
    let text = behind_line(alloc, b"s FALSE\n", &refutation)?;
    Ok(text)
}

// The answer by what was decided of the formula's problem.
fn answer_of(
    alloc: Global,
    file: &str,
    _q: &Qbf,
    _problem: &Problem,
    decision: Decision,
) -> Result<FormulaAnswer, Memory>
    requires name { IsTextName file.now }
    requires formula { IsFormula _q.now.matrix.vars _q.now.prefix _q.now.matrix.clauses }
    requires translated { _problem.now.clauses ≡ translation _q.now.prefix _q.now.matrix.clauses }
    requires named { _problem.now.names ≡ translation_names _q.now.matrix.clauses }
    requires decision { IsDecision _problem.now 0 decision }
    requires verdict { IsVerdict decision }
    ensures { IfOk result (IsFormulaAnswer file.now _q.now) }
{
    answers_from_certificates();
    match decision {
        Decision::Unsatisfiable(cert) => {
            let text = false_text(alloc, file, cert)?;
            Ok(FormulaAnswer::False(text))
        }
        Decision::Satisfiable(cert) => {
            let text = true_text(alloc, file, cert)?;
            Ok(FormulaAnswer::True(text))
        }
        Decision::OutOfBudget { .. } => unreachable!(),
    }
}

// The answer to the formula.
fn answer_formula(alloc: Global, file: &str, q: &Qbf) -> Result<FormulaAnswer, Memory>
    requires name { IsTextName file.now }
    requires formula { IsFormula q.now.matrix.vars q.now.prefix q.now.matrix.clauses }
    ensures { IfOk result (IsFormulaAnswer file.now q.now) }
{
    let problem = problem_of(alloc, q)?;
    let decision = decide(alloc, &problem, 0)?;
    answer_of(alloc, file, q, &problem, decision)
}

// The answer to the formula of a text.
fn answer_text(alloc: Global, file: &str, text: &[u8]) -> Result<FormulaAnswer, SatError>
    requires { IsTextName file.now }
    ensures { IsAnsweredFormula file.now text.now result }
{
    match read_qdimacs(alloc, text) {
        Ok(q) => match answer_formula(alloc, file, &q) {
            Ok(answer) => Ok(answer),
            Err(Memory) => Err(SatError::Memory),
        },
        Err(DimacsError::Memory) => Err(SatError::Memory),
        Err(error) => Err(SatError::Text(error)),
    }
}

// All bytes of the file.
fn read_file<L: Library>(alloc: Global, files: &mut L, file: &str) -> Result<Vec<u8>, SatError>
    ensures follows { Follows (L.told files.old) (L.told files.new) }
    ensures ok { IfOk result (λ bytes. IsHeld (L.told files.old).files file.now bytes.items) }
    ensures err { IfErr result (IsUnread (L.told files.old) (L.told files.new) file.now) }
{
    match read_whole(alloc, files, file, LIMIT) {
        Ok(bytes) => Ok(bytes),
        Err(error) => Err(SatError::from(error)),
    }
}

/// The value of the formula of the file, with the text that shows it, or why there is none. The text is whole before anything is
/// written. It takes memory for the certificate's text twice.
pub fn answer_formula_file<L: Library>(
    alloc: Global,
    files: &mut L,
    file: &str,
) -> Result<FormulaAnswer, SatError>
    requires name { IsTextName file.now }
    ensures follows { Follows (L.told files.old) (L.told files.new) }
    ensures outcome { IsFormulaOutcome (L.told files.old) (L.told files.new) file.now result }
{
    match read_file(alloc, files, file) {
        Ok(text) => answer_text(alloc, file, text.as_slice()),
        Err(error) => Err(error),
    }
}
