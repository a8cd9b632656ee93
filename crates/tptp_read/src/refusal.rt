// Why a statement is refused. Words are slices of the text until the number of the statement is known; they are copied then,
// and where the copy is refused memory, that is the answer.
ghost use Rattle.std.specs.Prelude.{◌≡◌};
ghost use Rattle.tptp_read.specs.declared.refusal.Refusal.TheVariants as refusals;
ghost use Rattle.tptp_read.specs.declared.stop.Stop.TheVariants as stops;
ghost use Rattle.tptp_read.specs.Verdicts.{refusal_of, IsSaid};

use crate::statement::Which;
use crate::stop::Stop;
use crate::text::ReadError;
use inst_logic::{Memory, Name};
use std::alloc::Global;

// Words are as they stand in the text.
#[derive(Clone, Copy, Debug)]
pub(crate) enum Refusal<'a> {
    Memory,
    Syntax,
    Language(&'a [u8]),
    Feature(&'a [u8]),
    Role(&'a [u8]),
    Limit(Which),
}

impl<'a> From<Memory> for Refusal<'a> {
    ghost from_gives = { λ _ e. e ≡ refusals.Memory };

    fn from(_e: Memory) -> Refusal<'a> {
        Refusal::Memory
    }
}

impl<'a> From<Stop> for Refusal<'a> {
    ghost from_gives = { λ s e. e ≡ refusal_of s };

    fn from(e: Stop) -> Refusal<'a> {
        match e {
            Stop::Memory => Refusal::Memory,
            Stop::Wrong => Refusal::Syntax,
        }
    }
}

// The refusal of the statement with this number.
pub(crate) fn refusal_of_statement(alloc: Global, why: Refusal, statement: usize) -> ReadError
    ensures { IsSaid why.entry statement result }
{
    match why {
        Refusal::Memory => ReadError::Memory,
        Refusal::Syntax => ReadError::Syntax { statement },
        Refusal::Language(word) => match Name::of(alloc, word) {
            Ok(word) => ReadError::Language { statement, word },
            Err(_) => ReadError::Memory,
        },
        Refusal::Feature(word) => match Name::of(alloc, word) {
            Ok(word) => ReadError::Feature { statement, word },
            Err(_) => ReadError::Memory,
        },
        Refusal::Role(word) => match Name::of(alloc, word) {
            Ok(word) => ReadError::Role { statement, word },
            Err(_) => ReadError::Memory,
        },
        Refusal::Limit(which) => ReadError::Limit { statement, which },
    }
}
