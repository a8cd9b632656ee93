// All tokens of a text, for an atom: it is judged over its whole text, where a statement ends at its full stop.
ghost use Rattle.std.specs.Prelude.{IfOk, MatchOption};
ghost use Rattle.tptp_read.specs.Atoms.{AreTokens, HasNoTokens};
ghost use Rattle.tptp_read.specs.LexemeView.{toks};

use crate::lexeme::Lexeme;
use crate::tokens::tokens;
use inst_logic::Memory;
use std::alloc::Global;

// The tokens of the text, or nothing where at some place before its end none begins.
pub(crate) fn all_tokens<'a>(
    alloc: Global,
    text: &'a [u8],
) -> Result<Option<Vec<Lexeme<'a>>>, Memory>
    ensures { IfOk result (λ r. MatchOption r (HasNoTokens text.now) (λ v. AreTokens text.now (toks v.items))) }
{
    let mut stream = tokens(text);
    let mut found = Vec::new(alloc);
    while let Some(t) = stream.next() {
        found.push(Lexeme {
            kind: t.kind,
            text: &text[t.start..t.end],
        })?;
    }
    if stream.place() != text.len() {
        return Ok(None);
    }
    Ok(Some(found))
}
