// Literals and clauses. Variables are printed by their numbers and not by the names that they had, so clauses that are equal
// have one text.
ghost use Rattle.std.specs.Prelude.{◌≡◌, ◌++◌, OnOk, IfOk, map};
ghost use Rattle.inst_logic.specs.Tree.{of_list};
ghost use Rattle.inst_logic.specs.LiteralView.{literal};
ghost use Rattle.inst_logic.specs.Printing.{sides_text, equality_sign, sign_text, atom_text, literal_text, clause_text};
ghost use Rattle.tptp_write.specs.Again.{CanBeRead, IsReadAgain};
ghost use Rattle.tptp_write.specs.Pieces.{following_text};

use crate::names::{push_bytes, push_name};
use crate::terms::{push_arguments, push_term};
use inst_logic::{ByteList, Clause, Kind, Literal, Memory, Sym, TermList};
use std::alloc::Global;

fn push_equality_sign(text: &mut Vec<u8>, positive: bool) -> Result<(), Memory>
    ensures { OnOk result (text.new.items ≡ text.old.items ++ equality_sign positive) }
{
    if positive {
        return push_bytes(text, b" = ");
    }
    push_bytes(text, b" != ")
}

/// Puts the sign of a literal that is no equality at the end.
pub fn push_sign(text: &mut Vec<u8>, positive: bool) -> Result<(), Memory>
    ensures { OnOk result (text.new.items ≡ text.old.items ++ sign_text positive) }
{
    if positive {
        return Ok(());
    }
    push_bytes(text, b"~")
}

// The two sides of an equality with its sign between them.
fn push_sides(text: &mut Vec<u8>, positive: bool, args: &TermList) -> Result<(), Memory>
    ensures { OnOk result (text.new.items ≡ text.old.items ++ sides_text (equality_sign positive) (of_list args.now)) }
{
    match args.as_slice() {
        [left, right] => {
            push_term(text, left)?;
            push_equality_sign(text, positive)?;
            push_term(text, right)
        }
        _ => push_arguments(text, args),
    }
}

/// Puts the atom with this symbol and these arguments at the end, with its sign.
pub fn push_atom(
    text: &mut Vec<u8>,
    positive: bool,
    sym: &Sym,
    args: &TermList,
) -> Result<(), Memory>
    ensures { OnOk result (text.new.items ≡ text.old.items ++ atom_text positive sym.now.kind sym.now.name (of_list args.now)) }
{
    match sym.kind {
        Kind::Equality => push_sides(text, positive, args),
        Kind::Predicate | Kind::Function => {
            push_sign(text, positive)?;
            push_name(text, sym.name.bytes())?;
            push_arguments(text, args)
        }
    }
}

/// Puts the literal at the end.
pub fn push_literal(text: &mut Vec<u8>, l: &Literal) -> Result<(), Memory>
    ensures { OnOk result (text.new.items ≡ text.old.items ++ literal_text (literal l.now)) }
{
    push_atom(text, l.positive, &l.sym, &l.args)
}

// What follows a literal of a clause.
fn push_following(text: &mut Vec<u8>, literals: &[Literal]) -> Result<(), Memory>
    ensures { OnOk result (text.new.items ≡ text.old.items ++ following_text (map literal literals.now)) }
{
    for l in literals {
        push_bytes(text, b" | ")?;
        push_literal(text, l)?;
    }
    Ok(())
}

/// Puts the clause of these literals at the end.
pub fn push_literals(text: &mut Vec<u8>, literals: &[Literal]) -> Result<(), Memory>
    ensures { OnOk result (text.new.items ≡ text.old.items ++ clause_text (map literal literals.now)) }
{
    match literals {
        [] => push_bytes(text, b"$false"),
        [first, rest @ ..] => {
            push_literal(text, first)?;
            push_following(text, rest)
        }
    }
}

/// Puts the clause at the end.
pub fn push_clause(text: &mut Vec<u8>, c: &Clause) -> Result<(), Memory>
    ensures { OnOk result (text.new.items ≡ text.old.items ++ clause_text c.now) }
{
    push_literals(text, c.as_slice())
}

/// The clause: its literals joined by ` | `, or `$false`.
pub fn clause_text(alloc: Global, c: &Clause) -> Result<ByteList, Memory>
    ensures is { IfOk result (λ text. text ≡ clause_text c.now) }
    ensures read_again { IfOk result (λ text. CanBeRead c.now → IsReadAgain text c.now) }
{
    let mut text = Vec::new(alloc);
    push_clause(&mut text, c)?;
    Ok(ByteList::from(text))
}
