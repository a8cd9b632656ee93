// The numbers of the variables of a statement, by first occurrence. Their names stay in the text, and none is copied.
ghost use Rattle.std.specs.Prelude.{◌≡◌, IfOk, OnOk, length, map};
ghost use Rattle.std.specs.List.{position_or_len};
ghost use Rattle.std.specs.Str.{bytes_eq};
ghost use Rattle.inst_logic.specs.Lists.{distinct, with_item};
ghost use Rattle.tptp_read.specs.Meaning.{variable_names};
ghost use Rattle.tptp_read.specs.LexemeView.{toks, texts};

use crate::lexeme::Lexeme;
use crate::words::is_variable;
use indexmap::IndexSet;
use inst_logic::Memory;
use std::alloc::Global;

// Adds the name where the set does not have it.
#[tactic(auto, using(crate::proofs::NameSets::with_name))]
fn note<'a>(seen: &mut IndexSet<&'a [u8]>, name: &'a [u8]) -> Result<(), Memory>
    ensures { OnOk result (texts seen.new.keys ≡ with_item bytes_eq (texts seen.old.keys) name.now) }
{
    seen.insert(name)?;
    Ok(())
}

// The names of the variables among the tokens.
pub(crate) fn variables_of<'a>(
    alloc: Global,
    tokens: &[Lexeme<'a>],
) -> Result<IndexSet<&'a [u8]>, Memory>
    ensures { IfOk result (λ v. texts v.keys ≡ distinct bytes_eq (variable_names (toks tokens.now))) }
{
    let mut seen = IndexSet::new(alloc);
    for l in tokens {
        if is_variable(l.kind) {
            note(&mut seen, l.text)?;
        }
    }
    Ok(seen)
}

// The place of the name, or the length where it has none.
#[tactic(auto, using(crate::proofs::NameSets::place_found, crate::proofs::NameSets::place_absent))]
pub(crate) fn place_of(vars: &IndexSet<&[u8]>, name: &[u8]) -> usize
    ensures { result ≡ position_or_len (λ v. bytes_eq v name.now) (texts vars.now.keys) }
{
    match vars.get_index_of(name) {
        Some(i) => i,
        None => vars.len(),
    }
}
