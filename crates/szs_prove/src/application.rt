// The first clause that has a function symbol with arguments. In a well-formed clause the outermost one is an argument of a literal,
// so no term is walked through.
ghost use Rattle.std.specs.Prelude.{◌≡◌, IsTrue, MatchOption};
ghost use Rattle.std.specs.List.{list_any};
ghost use Rattle.inst_logic.specs.View.{tree};
ghost use Rattle.inst_logic.specs.LiteralView.{literal};
ghost use Rattle.inst_logic.specs.Measure.{is_function_free};
ghost use Rattle.inst_logic.specs.WellFormed.{AreFormedClauses};
ghost use Rattle.szs_prove.specs.Applications.{atom_has_application, is_application, IsFirstWithFunctions};

use inst_logic::{Clause, Literal, Problem, Term};

fn is_application(t: &Term) -> bool
    ensures { result ≡ is_application (tree t.now) }
{
    match t {
        Term::Var(_) => false,
        Term::App(sym, _) => sym.arity != 0,
    }
}

// Whether an argument of the literal is an application.
fn has_application(l: &Literal) -> bool
    ensures { result ≡ atom_has_application (literal l.now).atom }
{
    for t in l.args.as_slice() {
        if is_application(t) {
            return true;
        }
    }
    false
}

fn applies(c: &Clause) -> bool
    ensures { result ≡ list_any (λ l. atom_has_application l.atom) c.now }
{
    for l in c.as_slice() {
        if has_application(l) {
            return true;
        }
    }
    false
}

/// The number of the first clause that has a function symbol with arguments, counted from 1; `None` where no clause has one.
pub fn first_with_functions(p: &Problem) -> Option<usize>
    requires formed { AreFormedClauses p.now.clauses }
    ensures { MatchOption result (IsTrue (is_function_free p.now.clauses)) (IsFirstWithFunctions p.now.clauses) }
{
    for i in 0..p.clauses.len() {
        if applies(&p.clauses.as_slice()[i]) {
            return Some(i + 1);
        }
    }
    None
}
