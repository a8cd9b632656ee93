// Names and symbols of printed names.
ghost use Rattle.std.specs.Prelude.{◌≡◌, ◌<◌, ℕ, List, length, false, true, map, IsTrue, IfOk};
ghost use Rattle.inst_logic.specs.Printing.{is_readable_name, name_text};
ghost use Rattle.inst_logic.specs.Tree.{app, of_list};
ghost use Rattle.term_bank.specs.Forest.{tree_at, AreIds, Extends, AreFormed, IsFormed};
ghost use Rattle.cert_format.specs.Names.{IsNameText, unquoted};
ghost use Rattle.cert_items.specs.Reading.{IsApplied};

use crate::mark::mark;
use inst_logic::{Kind, Memory, Name, Sym};
use std::alloc::Global;
use term_bank::{Bank, TermId};

// The content of a quoted name, from behind its first quote.
fn content(alloc: Global, bytes: &[u8]) -> Result<Vec<u8>, Memory>
    ensures { IfOk result (λ v. v.items ≡ unquoted false bytes.now) }
{
    let mut text = Vec::new(alloc);
    let mut escaped = false;
    for byte in bytes {
        if escaped {
            text.push(*byte)?;
            escaped = false;
        } else {
            if *byte == b'\'' {
                return Ok(text);
            }
            if *byte == b'\\' {
                escaped = true;
            } else {
                text.push(*byte)?;
            }
        }
    }
    Ok(text)
}

// The name that is printed so.
pub fn name_of(alloc: Global, text: &[u8]) -> Result<Name, Memory>
    requires { IsNameText text.now }
    ensures { IfOk result (λ n. (text.now ≡ name_text n) × IsTrue (is_readable_name n)) }
{
    match mark(text, b'\'') {
        Some(rest) => {
            let bytes = content(alloc, rest)?;
            Ok(Name::of(alloc, bytes.as_slice())?)
        }
        None => Ok(Name::of(alloc, text)?),
    }
}

// The id of the application of the symbol of this kind whose name is printed so.
pub fn apply_named(
    alloc: Global,
    bank: &mut Bank,
    kind: Kind,
    text: &[u8],
    args: &[TermId],
) -> Result<TermId, Memory>
    requires name { IsNameText text.now }
    requires ids { AreIds bank.old args.now }
    ensures at { IfOk result (λ id. IsApplied bank.new id kind text.now (map (tree_at bank.old) args.now)) }
    ensures extends { Extends bank.old bank.new }
    ensures formed { AreFormed bank.old → ((n : List ℕ) → IsFormed (app (record { kind = kind; name = n; arity = length args.now }) (of_list (map (tree_at bank.old) args.now)))) → AreFormed bank.new }
{
    let name = name_of(alloc, text)?;
    let sym = Sym {
        kind,
        name,
        arity: args.len(),
    };
    bank.app(&sym, args)
}
