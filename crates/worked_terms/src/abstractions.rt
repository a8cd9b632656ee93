// The constant for abstractions of a problem, the numbers of ground atoms, and abstractions of clauses.
ghost use Rattle.std.specs.Prelude.{All, IfOk, IsTrue};
ghost use Rattle.inst_logic.specs.WellFormed.{is_constant};
ghost use Rattle.term_bank.specs.Forest.{IsClauseOf};
ghost use Rattle.ground_abs.specs.Abstracts.{AreNotesIn};

use crate::building::{clause_at, last_atom};
use ground_abs::{Abstraction, bot_of};
use inst_logic::{ClauseList, Memory, NameList, Problem, Sym, canonical};
use prop_logic::Lit;
use std::alloc::Global;
use std::test::Fail;
use term_bank::{Bank, IdClauseList, TermId};
use tptp_read::{Statement, StatementList, read_text};
use tptp_write::{push_bytes, push_number};

// The name of the constant for abstractions.
pub const CONSTANTS: &str = "\
#cnf(c,axiom,p(X)).@bot_0\
#cnf(c,axiom,bot_0(X)).@bot_1\
#cnf(c,axiom,p(bot_1)).@bot_0\
#cnf(c,axiom,p(f(bot_1(X)))|bot_0).@bot_2\
";

// The numbers of the first atom, the second, and the first again, with how many atoms there are then.
pub const NUMBERS: &str = "\
#cnf(c,axiom,p(a)). cnf(d,axiom,q(a)).@ 0 1 0 2\
#cnf(c,axiom,p(a)). cnf(d,axiom,~p(a)).@ 0 0 0 1\
";

// The literals of the first clause's abstraction, by the numbers of their atoms, where the clause becomes the second one.
// Variables become one constant, and repeats are dropped from the clause, not from the literals. A literal and its complement stay
// two, over one atom.
pub const ABSTRACTIONS: &str = "\
#cnf(c,axiom,p(X)|~q(f(X,a))|p(Y)|p(a)). cnf(w,axiom,p(bot_0)|~q(f(bot_0,a))|p(a)).@ 0 ~1 0 2\
#cnf(c,axiom,p(f(X,Y))|~p(f(Y,Y))|q|~q). cnf(w,axiom,p(f(bot_0,bot_0))|~p(f(bot_0,bot_0))|q|~q).@ 0 ~0 1 ~1\
";

// Puts the clauses of the statements at the end, in canonical form.
fn push_clauses(
    alloc: Global,
    clauses: &mut ClauseList,
    statements: &StatementList,
) -> Result<(), Memory> {
    for statement in statements.as_slice() {
        if let Statement::Cnf { clause, .. } = statement {
            clauses.push(canonical(alloc, clause)?)?;
        }
    }
    Ok(())
}

// The clauses of the text.
fn problem_of(alloc: Global, text: &str) -> Result<Problem, Fail> {
    let statements = read_text(alloc, text.as_bytes())?;
    let mut clauses = ClauseList::new(alloc);
    push_clauses(alloc, &mut clauses, &statements)?;
    Ok(Problem {
        clauses,
        names: NameList::new(alloc),
    })
}

fn constant_of(alloc: Global, text: &str) -> Result<Sym, Fail>
    ensures { IfOk result (λ bot. IsTrue (is_constant bot)) }
{
    let problem = problem_of(alloc, text)?;
    Ok(bot_of(alloc, &problem)?)
}

/// Puts the name of the constant for abstractions of the text's clauses at the end of the answer.
pub fn push_constant(alloc: Global, answer: &mut Vec<u8>, text: &str) -> Result<(), Fail> {
    let bot = constant_of(alloc, text)?;
    Ok(push_bytes(answer, bot.name.bytes())?)
}

fn push_counted(answer: &mut Vec<u8>, label: &[u8], n: usize) -> Result<(), Memory> {
    push_bytes(answer, label)?;
    push_number(answer, n)
}

// The numbers of the first atom, the second, and the first again, with how many atoms there are then.
type Numbers = (usize, usize, usize, usize);

fn numbers_of(abstraction: &mut Abstraction, a: TermId, b: TermId) -> Result<Numbers, Memory> {
    let first = abstraction.atom_of(a)?;
    let second = abstraction.atom_of(b)?;
    let again = abstraction.atom_of(a)?;
    Ok((first, second, again, abstraction.len()))
}

// Puts the numbers of the two atoms at the end, where the atoms are those of the numbers.
fn push_numbered(
    answer: &mut Vec<u8>,
    abstraction: &mut Abstraction,
    a: TermId,
    b: TermId,
) -> Result<(), Fail> {
    let told = numbers_of(abstraction, a, b)?;
    let found = abstraction.atom_at(told.0) == Some(a) && abstraction.atom_at(told.1) == Some(b);
    if found && abstraction.atom_at(told.3).is_none() {
        push_counted(answer, b" ", told.0)?;
        push_counted(answer, b" ", told.1)?;
        push_counted(answer, b" ", told.2)?;
        push_counted(answer, b" ", told.3)?;
    }
    Ok(())
}

fn push_atoms(alloc: Global, answer: &mut Vec<u8>, a: TermId, b: TermId) -> Result<(), Fail> {
    let bot = constant_of(alloc, "cnf(c,axiom,p).")?;
    let mut abstraction = Abstraction::new(alloc, bot);
    push_numbered(answer, &mut abstraction, a, b)
}

/// Puts the numbers of the last atoms of the first two clauses at the end of the answer.
pub fn push_numbers(
    alloc: Global,
    answer: &mut Vec<u8>,
    bank: &Bank,
    clauses: &IdClauseList,
) -> Result<(), Fail>
    requires { All (IsClauseOf bank.now) clauses.now }
{
    match (last_atom(bank, clauses, 0), last_atom(bank, clauses, 1)) {
        (Some(a), Some(b)) => push_atoms(alloc, answer, a, b),
        _ => Ok(()),
    }
}

fn push_literals(answer: &mut Vec<u8>, literals: &[Lit]) -> Result<(), Memory> {
    for l in literals {
        push_counted(answer, if l.positive { b" " } else { b" ~" }, l.atom)?;
    }
    Ok(())
}

// Puts the literals of the first clause's abstraction at the end, where the clause becomes the second one.
fn push_abstracted(
    answer: &mut Vec<u8>,
    bank: &mut Bank,
    abstraction: &mut Abstraction,
    clauses: &IdClauseList,
) -> Result<(), Fail>
    requires clauses { All (IsClauseOf bank.old) clauses.now }
    requires notes { AreNotesIn bank.old abstraction.old.bot abstraction.old.notes }
{
    let (Some(c), Some(wanted)) = (clause_at(bank, clauses, 0), clauses.get(1)) else {
        return Ok(());
    };
    let lits = abstraction.abstract_clause(bank, c)?;
    let d = abstraction.ground(bank, c)?;
    if d.as_slice() == wanted.as_slice() {
        push_literals(answer, lits.as_slice())?;
    }
    Ok(())
}

/// Puts the abstraction of the first clause at the end of the answer.
pub fn push_abstraction(
    alloc: Global,
    answer: &mut Vec<u8>,
    bank: &mut Bank,
    clauses: &IdClauseList,
) -> Result<(), Fail>
    requires { All (IsClauseOf bank.old) clauses.now }
{
    let bot = constant_of(alloc, "cnf(c,axiom,p).")?;
    let mut abstraction = Abstraction::new(alloc, bot);
    push_abstracted(answer, bank, &mut abstraction, clauses)
}
