// The axioms of congruence. Argument i has the variables 2i and 2i + 1, so each axiom is in canonical form as it is built.
ghost use Rattle.std.specs.Prelude.{◌≡◌, ◌≤◌, ◌+◌, [], ◌∷◌, ◌++◌, filter, map, if◌then◌else◌, IfOk, OnOk};
ghost use Rattle.inst_logic.specs.LiteralView.{literal};
ghost use Rattle.inst_logic.specs.Tree.{app, none, more, of_list};
ghost use Rattle.inst_logic.specs.View.{tree};
ghost use Rattle.inst_logic.specs.WellFormed.{is_function_kind};
ghost use Rattle.inst_calculus.specs.Axioms.{equality, unequal_pairs, every_second, function_congruence, predicate_congruence, is_of_kind, is_predicate_kind};

use inst_logic::{Clause, ClauseList, Kind, Literal, Memory, Name, Sym, Term, TermList};
use std::alloc::Global;

// `=`, or with its sign `!=`, of two terms.
pub(crate) fn equation(
    alloc: Global,
    positive: bool,
    left: Term,
    right: Term,
) -> Result<Literal, Memory>
    ensures { IfOk result (λ l. literal l ≡ record { positive = positive; atom = app equality (more (tree left) (more (tree right) none)) }) }
{
    let mut args = TermList::new(alloc);
    args.push(left)?;
    args.push(right)?;
    Ok(Literal {
        positive,
        sym: Sym {
            kind: Kind::Equality,
            name: Name::of(alloc, b"=")?,
            arity: 2,
        },
        args,
    })
}

// X0 != X1 | X2 != X3 | .., with so many literals.
#[tactic(auto, using(std::proofs::lemmas::Grind::common_steps, crate::proofs::Pairs::pairs_more))]
fn premises(alloc: Global, count: usize) -> Result<Clause, Memory>
    ensures { IfOk result (λ c. c ≡ unequal_pairs 0 count) }
{
    let mut c = Clause::new(alloc);
    for i in 0..count {
        let left = i.checked_mul(2).ok_or(Memory)?;
        let right = left.checked_add(1).ok_or(Memory)?;
        c.push(equation(alloc, false, Term::Var(left), Term::Var(right))?)?;
    }
    Ok(c)
}

// A list of variables, as many as are wanted: the first one, and then every second.
#[tactic(auto, using(std::proofs::lemmas::Grind::common_steps, crate::proofs::Pairs::variables_more, crate::proofs::Pairs::variables_are))]
fn arguments(alloc: Global, first: usize, count: usize) -> Result<TermList, Memory>
    ensures { IfOk result (λ ts. of_list ts ≡ every_second first count) }
{
    let mut ts = TermList::new(alloc);
    for i in 0..count {
        let offset = i.checked_mul(2).ok_or(Memory)?;
        let v = first.checked_add(offset).ok_or(Memory)?;
        ts.push(Term::Var(v))?;
    }
    Ok(ts)
}

fn function_axiom(alloc: Global, f: &Sym) -> Result<Clause, Memory>
    ensures { IfOk result (λ c. c ≡ function_congruence f.now) }
{
    let mut c = premises(alloc, f.arity)?;
    let left = Term::App(f.clone()?, arguments(alloc, 0, f.arity)?);
    let right = Term::App(f.clone()?, arguments(alloc, 1, f.arity)?);
    c.push(equation(alloc, true, left, right)?)?;
    Ok(c)
}

fn predicate_axiom(alloc: Global, p: &Sym) -> Result<Clause, Memory>
    ensures { IfOk result (λ c. c ≡ predicate_congruence p.now) }
{
    let mut c = premises(alloc, p.arity)?;
    c.push(Literal {
        positive: false,
        sym: p.clone()?,
        args: arguments(alloc, 0, p.arity)?,
    })?;
    c.push(Literal {
        positive: true,
        sym: p.clone()?,
        args: arguments(alloc, 1, p.arity)?,
    })?;
    Ok(c)
}

fn is_function(s: &Sym) -> bool
    ensures { result ≡ is_of_kind is_function_kind s.now }
{
    match s.kind {
        Kind::Function => s.arity != 0,
        Kind::Predicate | Kind::Equality => false,
    }
}

fn is_predicate(s: &Sym) -> bool
    ensures { result ≡ is_of_kind is_predicate_kind s.now }
{
    match s.kind {
        Kind::Predicate => s.arity != 0,
        Kind::Equality | Kind::Function => false,
    }
}

fn add_function(alloc: Global, axioms: &mut ClauseList, s: &Sym) -> Result<(), Memory>
    ensures { OnOk result (axioms.new ≡ axioms.old ++ (if is_of_kind is_function_kind s.now then function_congruence s.now ∷ [] else [])) }
{
    if is_function(s) {
        axioms.push(function_axiom(alloc, s)?)?;
    }
    Ok(())
}

fn add_predicate(alloc: Global, axioms: &mut ClauseList, s: &Sym) -> Result<(), Memory>
    ensures { OnOk result (axioms.new ≡ axioms.old ++ (if is_of_kind is_predicate_kind s.now then predicate_congruence s.now ∷ [] else [])) }
{
    if is_predicate(s) {
        axioms.push(predicate_axiom(alloc, s)?)?;
    }
    Ok(())
}

// Adds the axiom of each function symbol with arguments.
#[tactic(auto, using(std::proofs::lemmas::Grind::common_steps, crate::proofs::Pairs::filtered_more))]
pub(crate) fn add_functions(
    alloc: Global,
    axioms: &mut ClauseList,
    symbols: &[Sym],
) -> Result<(), Memory>
    ensures { OnOk result (axioms.new ≡ axioms.old ++ map function_congruence (filter (is_of_kind is_function_kind) symbols.now)) }
{
    for s in symbols {
        add_function(alloc, axioms, s)?;
    }
    Ok(())
}

// Adds the axiom of each predicate symbol with arguments.
#[tactic(auto, using(std::proofs::lemmas::Grind::common_steps, crate::proofs::Pairs::filtered_more))]
pub(crate) fn add_predicates(
    alloc: Global,
    axioms: &mut ClauseList,
    symbols: &[Sym],
) -> Result<(), Memory>
    ensures { OnOk result (axioms.new ≡ axioms.old ++ map predicate_congruence (filter (is_of_kind is_predicate_kind) symbols.now)) }
{
    for s in symbols {
        add_predicate(alloc, axioms, s)?;
    }
    Ok(())
}
