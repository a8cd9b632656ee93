// The cells of one table, read by a truth test.
ghost use Rattle.std.specs.Prelude.{◌≡◌, ◌↔◌, ◌+◌, ◌^◌, ◌++◌, ◌∷◌, [], ℕ, List, IsTrue, IfOk, length, map};
ghost use Rattle.inst_logic.specs.LiteralView.{literal};
ghost use Rattle.inst_logic.specs.Substitution.{tree_vars};
ghost use Rattle.inst_logic.specs.WellFormed.{IsAtom};
ghost use Rattle.inst_calculus.specs.Models.{SelectedClause, IsTrueBy};
ghost use Rattle.finite_model.specs.Flattening.{applied, element};
ghost use Rattle.finite_model.specs.Reading.{AreFilled, IsRelation, IsValueAt, IsTruthAt, HasValues};

use crate::numbering::element_term;
use crate::rows::{row_at, row_count};
use inst_logic::{Literal, Memory, PlaceList, Sym, TermList};
use std::alloc::Global;

/// Tells whether ground atoms are true by some clauses with selected literals.
pub trait TruthTest {
    /// The clauses, each with its selected literal.
    ghost members: { Self → List SelectedClause };

    /// What the test needs to answer.
    ghost ready: { Self → Type 0 };

    /// What stays as it was, in a test and what became of it by questions.
    ghost keeps: { Self → Self → Type 0 };

    /// Whether the atom of the literal, which has no variables, is true; its sign doesn't count.
    fn is_true(&mut self, l: &Literal) -> Result<bool, Memory>
        requires formed { IsAtom (literal l.now).atom }
        requires variable_free { tree_vars (literal l.now).atom ≡ [] }
        requires ready { ready self.old }
        ensures truth { IfOk result (λ b. IsTrue b ↔ IsTrueBy (members self.old) (literal l.now).atom) }
        ensures same { members self.new ≡ members self.old }
        ensures ready { ready self.new }
        ensures keeps { keeps self.old self.new };

    /// A test of which nothing was asked keeps all.
    ghost keeps_itself: { (t : Self) → keeps t t };

    /// What two questions keep one by one they keep together.
    ghost keeps_on: { (a b c : Self) → keeps a b → keeps b c → keeps a c };
}

// The constants for the elements.
fn constants(alloc: Global, es: &[usize]) -> Result<TermList, Memory>
    ensures { IfOk result (λ ts. ts ≡ map element es.now) }
{
    let mut ts = TermList::new(alloc);
    for e in es {
        ts.push(element_term(alloc, *e)?)?;
    }
    Ok(ts)
}

// The predicate of the elements.
fn relation_atom(alloc: Global, sym: &Sym, es: &[usize]) -> Result<Literal, Memory>
    ensures { IfOk result (λ l. (literal l).atom ≡ applied sym.now (map element es.now)) }
{
    Ok(Literal {
        positive: true,
        sym: sym.clone()?,
        args: constants(alloc, es)?,
    })
}

// The predicate of a function at the elements and a value.
fn value_atom(alloc: Global, sym: &Sym, es: &[usize], e: usize) -> Result<Literal, Memory>
    ensures { IfOk result (λ l. (literal l).atom ≡ applied sym.now (map element es.now ++ element e ∷ [])) }
{
    let mut args = constants(alloc, es)?;
    args.push(element_term(alloc, e)?)?;
    Ok(Literal {
        positive: true,
        sym: sym.clone()?,
        args,
    })
}

// Whether the test takes the element for the value of a function.
fn is_value<T: TruthTest>(
    alloc: Global,
    test: &mut T,
    sym: &Sym,
    es: &[usize],
    e: usize,
) -> Result<bool, Memory>
    requires relation { IsRelation sym.now (length es.now + 1) }
    requires ready { T.ready test.old }
    ensures truth { IfOk result (λ b. IsTrue b ↔ IsTrueBy (T.members test.old) (applied sym.now (map element es.now ++ element e ∷ []))) }
    ensures same { T.members test.new ≡ T.members test.old }
    ensures ready { T.ready test.new }
    ensures keeps { T.keeps test.old test.new }
{
    let atom = value_atom(alloc, sym, es, e)?;
    test.is_true(&atom)
}

// The value of a function: the least element that the test takes for it.
fn value_at<T: TruthTest>(
    alloc: Global,
    test: &mut T,
    sym: &Sym,
    es: &[usize],
    k: usize,
) -> Result<usize, Memory>
    requires relation { IsRelation sym.now (length es.now + 1) }
    requires some { (e : ℕ) × IsValueAt (T.members test.old) k sym.now es.now e }
    requires ready { T.ready test.old }
    ensures value { IfOk result (λ e. IsValueAt (T.members test.old) k sym.now es.now e) }
    ensures same { T.members test.new ≡ T.members test.old }
    ensures ready { T.ready test.new }
    ensures keeps { T.keeps test.old test.new }
{
    for i in 0..k {
        let found = is_value(alloc, test, sym, es, i + 1)?;
        if found {
            return Ok(i + 1);
        }
    }
    unreachable!()
}

// 1 where the test takes the atom for true, and 0 elsewhere.
fn truth_at<T: TruthTest>(
    alloc: Global,
    test: &mut T,
    sym: &Sym,
    es: &[usize],
) -> Result<usize, Memory>
    requires relation { IsRelation sym.now (length es.now) }
    requires ready { T.ready test.old }
    ensures truth { IfOk result (λ n. IsTruthAt (T.members test.old) sym.now es.now n) }
    ensures same { T.members test.new ≡ T.members test.old }
    ensures ready { T.ready test.new }
    ensures keeps { T.keeps test.old test.new }
{
    let atom = relation_atom(alloc, sym, es)?;
    let holds = test.is_true(&atom)?;
    Ok(holds as usize)
}

/// The cells of a function, whose symbol in the flattened form is `sym`, with `n` arguments.
pub(crate) fn function_cells<T: TruthTest>(
    alloc: Global,
    test: &mut T,
    sym: &Sym,
    n: usize,
    k: usize,
) -> Result<PlaceList, Memory>
    requires relation { IsRelation sym.now (n + 1) }
    requires values { HasValues (T.members test.old) k n sym.now }
    requires ready { T.ready test.old }
    ensures cells { IfOk result (λ cells. AreFilled k n (IsValueAt (T.members test.old) k sym.now) (k ^ n) cells) }
    ensures same { T.members test.new ≡ T.members test.old }
    ensures ready { T.ready test.new }
    ensures keeps { T.keeps test.old test.new }
{
    let count = row_count(k, n)?;
    let mut cells = PlaceList::new(alloc);
    for row in 0..count {
        let es = row_at(alloc, k, n, row)?;
        let e = value_at(alloc, test, sym, es.as_slice(), k)?;
        cells.push(e)?;
    }
    Ok(cells)
}

/// The cells of a predicate, whose symbol in the flattened form is `sym`, with `n` arguments.
pub(crate) fn predicate_cells<T: TruthTest>(
    alloc: Global,
    test: &mut T,
    sym: &Sym,
    n: usize,
    k: usize,
) -> Result<PlaceList, Memory>
    requires relation { IsRelation sym.now n }
    requires ready { T.ready test.old }
    ensures cells { IfOk result (λ cells. AreFilled k n (IsTruthAt (T.members test.old) sym.now) (k ^ n) cells) }
    ensures same { T.members test.new ≡ T.members test.old }
    ensures ready { T.ready test.new }
    ensures keeps { T.keeps test.old test.new }
{
    let count = row_count(k, n)?;
    let mut cells = PlaceList::new(alloc);
    for row in 0..count {
        let es = row_at(alloc, k, n, row)?;
        let truth = truth_at(alloc, test, sym, es.as_slice())?;
        cells.push(truth)?;
    }
    Ok(cells)
}
