// The reader of the QDIMACS form (QDIMACS Standard, version 1.1, 2005): the DIMACS form with lines of quantifiers between the
// header and the clauses.
ghost use Rattle.std.specs.Prelude.{◌≡◌, ◌<◌, All, IfOk, IfErr, count_by};
ghost use Rattle.prop_logic.specs.Literal.{AllAtomsBelow};
ghost use Rattle.qbf_logic.specs.declared.quant.Quant.{Quant};
ghost use Rattle.qbf_logic.specs.Formulas.{AreOnce, IsFormula};
ghost use Rattle.dimacs_front.specs.Form.{IsRead};
ghost use Rattle.dimacs_front.specs.Qdimacs.{IsQdimacs};
ghost use Rattle.dimacs_front.specs.FormulaRefusals.{IsFormulaRefusedFor};
ghost use Rattle.dimacs_front.specs.Quantified.{formula_in, is_too_large};

use crate::cnf::{Cnf, Qbf};
use crate::error::DimacsError;
use crate::header::read_header;
use crate::quantifiers::read_prefix;
use crate::read::read_clauses;
use crate::stream::Tokens;
use inst_logic::Memory;
use qbf_logic::{Quant, measure_of};
use std::alloc::Global;

// The most universal variables, and the greatest measure of clauses.
const UNIVERSALS: usize = 1024;

const MEASURE: u64 = 10_000_000;

fn count_universals(prefix: &[Quant]) -> usize
    ensures { result ≡ count_by (λ q. q.all) prefix.now }
{
    prefix.iter().filter(|q| q.all).count()
}

// Whether a limit on formulas is passed.
fn is_too_large(alloc: Global, q: &Qbf) -> Result<bool, Memory>
    requires once { AreOnce q.now.prefix }
    requires quantified_below { All (λ r. r.var < q.now.matrix.vars) q.now.prefix }
    requires matrix_below { AllAtomsBelow q.now.matrix.vars q.now.matrix.clauses }
    ensures { IfOk result (λ b. b ≡ is_too_large q.now) }
{
    let universals = count_universals(q.prefix.as_slice());
    let measure = measure_of(
        alloc,
        q.prefix.as_slice(),
        q.matrix.vars,
        q.matrix.clauses.as_slice(),
    )?;
    Ok(UNIVERSALS < universals || MEASURE < measure)
}

// What is read of the text.
fn read_text(alloc: Global, text: &[u8]) -> Result<Qbf, DimacsError>
    ensures read { IsRead (formula_in text.now) result }
    ensures formula { IfOk result (λ q. IsFormula q.matrix.vars q.prefix q.matrix.clauses) }
{
    let mut tokens = Tokens::new(text);
    let header = read_header(&mut tokens)?;
    let prefix = read_prefix(alloc, &mut tokens, &header)?;
    let clauses = read_clauses(alloc, &mut tokens, &header)?;
    let found = clauses.len();
    if found != header.count {
        return Err(DimacsError::Count { found });
    }
    let vars = header.vars;
    let matrix = Cnf { vars, clauses };
    let formula = Qbf { prefix, matrix };
    if is_too_large(alloc, &formula)? {
        return Err(DimacsError::Limit);
    }
    Ok(formula)
}

/// The formula of a text in the QDIMACS form, with its quantifiers in the order in which they are written and the clauses in
/// theirs, or the first refusal in the order of the tokens. It takes time in proportion to the text and to the number of variables.
pub fn read_qdimacs(alloc: Global, text: &[u8]) -> Result<Qbf, DimacsError>
    ensures qdimacs { IfOk result (IsQdimacs text.now) }
    ensures refused { IfErr result (IsFormulaRefusedFor text.now) }
    ensures read { IsRead (formula_in text.now) result }
    ensures formula { IfOk result (λ q. IsFormula q.matrix.vars q.prefix q.matrix.clauses) }
{
    read_text(alloc, text)
}
