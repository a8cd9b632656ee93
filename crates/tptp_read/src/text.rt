// Whole texts, statement by statement: the tokens of one statement are held at a time, and the first one that is refused ends
// the reading.
ghost use Rattle.std.specs.Prelude.{◌≡◌, ◌≤◌, IfOk, IfErr, IsTrue, All, drop, length};
ghost use Rattle.inst_logic.specs.LiteralView.{literal};
ghost use Rattle.inst_logic.specs.WellFormed.{IsAtom};
ghost use Rattle.tptp_read.specs.declared.text.ReadError.TheVariants as errors;
ghost use Rattle.tptp_read.specs.Names.{HasReadableNames, tree_is_readable};
ghost use Rattle.tptp_read.specs.Text.{Readable, IsCause, IsFormedStatement};
ghost use Rattle.tptp_read.specs.Atoms.{ReadsAtom, IsAtomCause};

use crate::laws::readable_is_good;
use crate::refusal::refusal_of_statement;
use crate::statement::{StatementList, Which};
use crate::step::step;
use crate::whole_atom::atom_in;
use inst_logic::{Literal, Memory, Name};
use std::alloc::Global;
use thiserror::Error;

/// Why a text gives no statements. Statements are counted from 1, and a word is as it stands in the text.
#[derive(Debug, Drop, Error)]
pub enum ReadError {
    /// No token begins somewhere in the statement, or its tokens are none of a statement.
    #[error("statement {statement} is not one of the grammar")]
    Syntax { statement: usize },
    /// The statement is one of another language of formulas.
    #[error("statement {statement} is of a language that is not read")]
    Language { statement: usize, word: Name },
    /// The clause has a token that is not supported, as a number.
    #[error("statement {statement} has a token that is not supported")]
    Feature { statement: usize, word: Name },
    /// The role is not one of those that are read.
    #[error("statement {statement} has a role that is not read")]
    Role { statement: usize, word: Name },
    /// The statement is too large.
    #[error("statement {statement} passes a limit")]
    Limit { statement: usize, which: Which },
    /// Memory was wanted and not given.
    #[error("out of memory")]
    Memory,
}

impl From<Memory> for ReadError {
    ghost from_gives = { λ _ e. e ≡ errors.Memory };

    fn from(_e: Memory) -> ReadError {
        ReadError::Memory
    }
}

fn behind(text: &[u8], end: usize) -> &[u8]
    requires { end ≤ length text.now }
    ensures { result.now ≡ drop end text.now }
{
    &text[end..]
}

/// The statements of a text, in their order. A clause has its literals in order, without those over `$true` and `$false`, and
/// its variables are numbered from 0 by first occurrence. The text is bytes, and need not be UTF-8. A refusal names the first
/// statement that is refused, and no statement is given then.
pub fn read_text(alloc: Global, text: &[u8]) -> Result<StatementList, ReadError>
    ensures readable { IfOk result (Readable text.now) }
    ensures formed { IfOk result (All IsFormedStatement) }
    ensures names { IfOk result (All HasReadableNames) }
    ensures refused { IfErr result (IsCause text.now) }
{
    readable_is_good();
    let mut list = StatementList::new(alloc);
    let mut rest = text;
    loop {
        match step(alloc, rest) {
            Ok(None) => return Ok(list),
            Ok(Some((statement, end))) => {
                list.push(statement)?;
                rest = behind(rest, end);
            }
            Err(refusal) => return Err(refusal_of_statement(alloc, refusal, list.len() + 1)),
        }
    }
}

/// The ground atom that the text is, as a positive literal. A refusal speaks of statement 1.
pub fn read_atom(alloc: Global, text: &[u8]) -> Result<Literal, ReadError>
    ensures read { IfOk result (λ l. ReadsAtom text.now (literal l)) }
    ensures formed { IfOk result (λ l. IsAtom (literal l).atom) }
    ensures names { IfOk result (λ l. IsTrue (tree_is_readable (literal l).atom)) }
    ensures refused { IfErr result (IsAtomCause text.now) }
{
    atom_in(alloc, text)
}
