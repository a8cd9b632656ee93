// Symbols with too many arguments. They are looked for once a clause is read, so that its form is judged before its limits.
ghost use Rattle.std.specs.Prelude.{◌≡◌, map};
ghost use Rattle.std.specs.List.{list_any};
ghost use Rattle.inst_logic.specs.Tree.{app, of_list};
ghost use Rattle.inst_logic.specs.View.{tree};
ghost use Rattle.tptp_read.specs.Gathered.{tree_wide, literal_wide};

use inst_logic::{Clause, Literal, Sym, Term, TermList};

// The most arguments that a symbol may have.
const MOST_ARGUMENTS: usize = 1024;

#[cycle(widths)]
fn term_is_wide(t: &Term) -> bool
    ensures { result ≡ tree_wide (tree t.now) }
{
    match t {
        Term::Var(_) => false,
        Term::App(sym, args) => application_is_wide(sym, args),
    }
}

#[cycle(widths)]
#[tactic(auto, using(crate::proofs::Widths::trees_wide_any))]
fn application_is_wide(sym: &Sym, args: &TermList) -> bool
    ensures { result ≡ tree_wide (app sym.now (of_list args.now)) }
{
    sym.arity > MOST_ARGUMENTS || any_is_wide(args.as_slice())
}

#[cycle(widths)]
#[tactic(auto, using(std::proofs::lemmas::List::Folds::list_any_at, inst_logic::proofs::Sums::list_any_map, inst_logic::proofs::Walks::height_at))]
fn any_is_wide(ts: &[Term]) -> bool
    ensures { result ≡ list_any tree_wide (map tree ts.now) }
{
    for t in ts {
        if term_is_wide(t) {
            return true;
        }
    }
    false
}

pub(crate) fn literal_is_wide(l: &Literal) -> bool
    ensures { result ≡ tree_wide (app l.now.sym (of_list l.now.args)) }
{
    application_is_wide(&l.sym, &l.args)
}

// Whether a symbol of the clause has too many arguments.
#[tactic(auto, using(std::proofs::lemmas::List::Folds::list_any_at, inst_logic::proofs::Sums::list_any_map))]
pub(crate) fn is_wide(c: &Clause) -> bool
    ensures { result ≡ list_any literal_wide c.now }
{
    for l in c.as_slice() {
        if literal_is_wide(l) {
            return true;
        }
    }
    false
}
