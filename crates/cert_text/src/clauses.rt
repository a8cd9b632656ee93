// Literals and clauses of interned atoms.
ghost use Rattle.std.specs.Prelude.{◌≡◌, ◌<◌, ◌++◌, OnOk, length, map};
ghost use Rattle.inst_logic.specs.Tree.{of_list};
ghost use Rattle.inst_logic.specs.Printing.{sides_text, equality_sign, sign_text, atom_text, literal_text, clause_text};
ghost use Rattle.term_bank.specs.Forest.{tree_at, literal_tree, clause_at, AreIds, IsClauseOf};
ghost use Rattle.tptp_write.specs.Pieces.{following_text};

use crate::pen::Pen;
use inst_logic::{Kind, Memory, Sym};
use term_bank::{Bank, IdClause, IdLiteral, Root, TermId};

fn push_equality_sign(pen: &mut Pen, positive: bool) -> Result<(), Memory>
    ensures { OnOk result (pen.new ≡ pen.old ++ equality_sign positive) }
{
    if positive {
        return pen.bytes(b" = ");
    }
    pen.bytes(b" != ")
}

fn push_sign(pen: &mut Pen, positive: bool) -> Result<(), Memory>
    ensures { OnOk result (pen.new ≡ pen.old ++ sign_text positive) }
{
    if positive {
        return Ok(());
    }
    pen.bytes(b"~")
}

// The two sides of an equality with its sign between them.
fn push_sides(pen: &mut Pen, bank: &Bank, positive: bool, args: &[TermId]) -> Result<(), Memory>
    requires { AreIds bank.now args.now }
    ensures { OnOk result (pen.new ≡ pen.old ++ sides_text (equality_sign positive) (of_list (map (tree_at bank.now) args.now))) }
{
    if args.len() != 2 {
        return pen.arguments(bank, args);
    }
    pen.term(bank, args[0])?;
    push_equality_sign(pen, positive)?;
    pen.term(bank, args[1])
}

fn push_atom(
    pen: &mut Pen,
    bank: &Bank,
    positive: bool,
    sym: &Sym,
    args: &[TermId],
) -> Result<(), Memory>
    requires { AreIds bank.now args.now }
    ensures { OnOk result (pen.new ≡ pen.old ++ atom_text positive sym.now.kind sym.now.name (of_list (map (tree_at bank.now) args.now))) }
{
    match sym.kind {
        Kind::Equality => push_sides(pen, bank, positive, args),
        Kind::Predicate | Kind::Function => {
            push_sign(pen, positive)?;
            pen.name(sym.name.bytes())?;
            pen.arguments(bank, args)
        }
    }
}

fn push_literal(pen: &mut Pen, bank: &Bank, l: &IdLiteral) -> Result<(), Memory>
    requires { l.now.atom < length bank.now.trees }
    ensures { OnOk result (pen.new ≡ pen.old ++ literal_text (literal_tree bank.now l.now)) }
{
    match bank.root(l.atom) {
        Root::Var(_) => {
            push_sign(pen, l.positive)?;
            pen.term(bank, l.atom)
        }
        Root::App(sym, args) => push_atom(pen, bank, l.positive, sym, args),
    }
}

// What follows a literal of a clause.
fn push_following(pen: &mut Pen, bank: &Bank, literals: &[IdLiteral]) -> Result<(), Memory>
    requires { IsClauseOf bank.now literals.now }
    ensures { OnOk result (pen.new ≡ pen.old ++ following_text (clause_at bank.now literals.now)) }
{
    for l in literals {
        pen.bytes(b" | ")?;
        push_literal(pen, bank, l)?;
    }
    Ok(())
}

// The literals joined by ` | `, or `$false`.
pub fn push_clause(pen: &mut Pen, bank: &Bank, clause: &IdClause) -> Result<(), Memory>
    requires { IsClauseOf bank.now clause.now }
    ensures { OnOk result (pen.new ≡ pen.old ++ clause_text (clause_at bank.now clause.now)) }
{
    match clause.as_slice() {
        [] => pen.bytes(b"$false"),
        [first, rest @ ..] => {
            push_literal(pen, bank, first)?;
            push_following(pen, bank, rest)
        }
    }
}
