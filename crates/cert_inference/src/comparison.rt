// Whether a clause is the canonical form of a member's instance, seen without building it where that can be. This only saves work:
// the walk may say no where there are many variables, literals or nodes, or where literals become one, and then the instance is
// built.
ghost use Rattle.std.specs.Prelude.{◌≡◌, ◌<◌, ◌≤◌, ◌++◌, ◌∷◌, List, [], true, ℕ, length, drop, map, position, reverse, IfOk, IfSome, OnOk};
ghost use denote.Bor.{Bor};
ghost use Rattle.inst_logic.specs.Clauses.{canonical_form, instance as under};
ghost use Rattle.inst_logic.specs.Lists.{distinct};
ghost use Rattle.inst_logic.specs.Tree.{var};
ghost use Rattle.inst_logic.specs.Unifiers.{IsApplication, Sided};
ghost use Rattle.term_bank.specs.Forest.{AreFormed, AreIds, Extends, IsClauseAt, IsClauseOf, clause_at, tree_at};
ghost use Rattle.unify_core.specs.Bindings.{Bound_list};
ghost use Rattle.unify_core.specs.Chains.{AreBindings};
ghost use Rattle.unify_core.specs.Sides.{IsResolvedBy, of_side};
ghost use Rattle.unify_core.specs.Terms.{AreTerms};
ghost use Rattle.clause_form.specs.Literals.{id_eq, with_atoms};
ghost use Rattle.clause_form.specs.Orders.{is_variable, number_in, with_variable};
ghost use Rattle.clause_form.specs.Walks.{IsFree, numbers_of, on};
ghost use Rattle.clause_form.specs.declared.walk.Leaves.TheVariants.{Led};
ghost use Rattle.cert_inference.specs.Instances.{IsInstanceOf};
ghost use Rattle.cert_inference.specs.Comparisons.{ArePairs, IsStep, IsStepUnder, pairs_of};
ghost use Rattle.cert_inference.specs.declared.comparison.NodePair.{NodePair};

use crate::equal::same_trees;
use crate::instance::Instance;
use clause_form::Workspace;
use inst_logic::Memory;
use std::alloc::Global;
use term_bank::{Bank, IdClause, IdLiteral, Shape, TermId};
use unify_core::{Bindings, Bound, Side, Variable};

// The most variables, and the most literals, that are looked at one by one.
const FEW: usize = 16;

// The most pairs that are compared of one atom. Arguments that are the terms by their ids are no pairs.
const STEPS: usize = 512;

// A node that is to become a term of the clause.
#[derive(Clone, Copy)]
struct NodePair {
    node: Bound,
    term: TermId,
}

/// Comparison to work in, which is kept from one comparison to the next.
#[derive(Drop)]
pub struct Comparison {
    // What is left to compare of an atom, the next pair last.
    pairs: Vec<NodePair>,
    // The variables that were met, in the order of their numbers.
    order: Vec<Variable>,
}

impl Comparison {
    /// Takes no memory.
    pub fn new(alloc: Global) -> Comparison {
        Comparison {
            pairs: Vec::new(alloc),
            order: Vec::new(alloc),
        }
    }
}

// The variable's place, where it is there.
fn place_of(variables: &[Variable], v: Variable) -> Option<usize>
    ensures { result ≡ position (is_variable v) variables.now }
{
    variables.iter().position(|w| v == *w)
}

// The variable's number, from 0. A new one goes last, where there are few.
fn number_of(order: &mut Vec<Variable>, v: Variable) -> Result<Option<usize>, Memory>
    ensures { IfOk result (λ o. IfSome o (λ n. (order.new.items ≡ with_variable order.old.items v) × (n ≡ number_in order.old.items v))) }
{
    if let Some(number) = place_of(order, v) {
        return Ok(Some(number));
    }
    let count = order.len();
    if count == FEW {
        return Ok(None);
    }
    order.push(v)?;
    Ok(Some(count))
}

// Whether the term is the variable of the number that this one gets.
fn is_numbered(
    bank: &Bank,
    order: &mut Vec<Variable>,
    v: Variable,
    term: TermId,
) -> Result<bool, Memory>
    requires { term < length bank.now.trees }
    ensures { IfOk result (λ r. r ≡ true → (order.new.items ≡ with_variable order.old.items v) × (tree_at bank.now term ≡ var (number_in order.old.items v))) }
{
    match number_of(order, v)? {
        Some(number) => Ok(bank.shape(term) == Shape::Var(number)),
        None => Ok(false),
    }
}

// Pairs of the side's nodes and the terms, so that the first one is the next.
fn push_pairs(
    pairs: &mut Vec<NodePair>,
    side: Side,
    nodes: &[TermId],
    terms: &[TermId],
) -> Result<(), Memory>
    requires { length nodes.now ≡ length terms.now }
    ensures { OnOk result (reverse pairs.new.items ≡ pairs_of side nodes.now terms.now ++ reverse pairs.old.items) }
{
    for i in (0..nodes.len()).rev() {
        pairs.push(NodePair {
            node: Bound {
                side,
                term: nodes[i],
            },
            term: terms[i],
        })?;
    }
    Ok(())
}

// Whether the bindings lead from the node to this very term, and it has no variables. Then the node becomes the term.
fn leads_to_ground(bank: &Bank, bindings: &Bindings, node: Bound, term: TermId) -> bool
    requires bindings { AreBindings bank.now bindings.now.entries }
    requires node { node.term < length bank.now.trees }
    requires term { term < length bank.now.trees }
    ensures { result ≡ true → (rest : List NodePair) (os : List ℕ) → IsStepUnder bank.now bindings.now.entries (record { node = node; term = term } ∷ rest) rest os os }
{
    let end = bindings.follow(bank, node);
    end.term == term && bank.ground(term)
}

// How many of the side's first nodes are seen to become the terms at the same places, up to the first that is not.
fn seen_count(
    bank: &Bank,
    bindings: &Bindings,
    side: Side,
    nodes: &[TermId],
    terms: &[TermId],
) -> usize
    requires bindings { AreBindings bank.now bindings.now.entries }
    requires nodes { AreIds bank.now nodes.now }
    requires terms { AreIds bank.now terms.now }
    requires counted { length nodes.now ≡ length terms.now }
    ensures within { result ≤ length nodes.now }
    ensures seen { (rest : List NodePair) (os : List ℕ) → IsStepUnder bank.now bindings.now.entries (pairs_of side nodes.now terms.now ++ rest) (pairs_of side (drop result nodes.now) (drop result terms.now) ++ rest) os os }
{
    for count in 0..nodes.len() {
        let node = Bound {
            side,
            term: nodes[count],
        };
        if !leads_to_ground(bank, bindings, node, terms[count]) {
            return count;
        }
    }
    nodes.len()
}

// Where the term has the symbol of the node, which is an application, puts off the arguments of both, but for those at the front
// that are seen to be the same.
fn open(
    bank: &Bank,
    bindings: &Bindings,
    pairs: &mut Vec<NodePair>,
    next: NodePair,
) -> Result<bool, Memory>
    requires bindings { AreBindings bank.now bindings.now.entries }
    requires node { next.node.term < length bank.now.trees }
    requires term { next.term < length bank.now.trees }
    requires application { IsApplication (tree_at bank.now next.node.term) }
    ensures { IfOk result (λ r. r ≡ true → (rest : List NodePair) (os : List ℕ) → IsStepUnder bank.now bindings.now.entries (next ∷ reverse pairs.old.items ++ rest) (reverse pairs.new.items ++ rest) os os) }
{
    let NodePair { node, term } = next;
    if bank.symbol_number(node.term) != bank.symbol_number(term) {
        return Ok(false);
    }
    let nodes = bank.args(node.term);
    let terms = bank.args(term);
    if nodes.len() != terms.len() {
        return Ok(false);
    }
    let seen = seen_count(bank, bindings, node.side, nodes, terms);
    push_pairs(pairs, node.side, &nodes[seen..], &terms[seen..])?;
    Ok(true)
}

// Compares the root of the node, which was followed, with that of the term.
fn compare_roots(
    bank: &Bank,
    bindings: &Bindings,
    pairs: &mut Vec<NodePair>,
    order: &mut Vec<Variable>,
    next: NodePair,
) -> Result<bool, Memory>
    requires bindings { AreBindings bank.now bindings.now.entries }
    requires node { next.node.term < length bank.now.trees }
    requires term { next.term < length bank.now.trees }
    ensures { IfOk result (λ r. r ≡ true → (bs : Bor Bound_list) → bs.now.entries ≡ bindings.now.entries → IsFree bank.now (Led bs) next.node → (rest : List NodePair) → IsStep bank.now (Led bs) (next ∷ reverse pairs.old.items ++ rest) (reverse pairs.new.items ++ rest) (numbers_of order.old.items) (numbers_of order.new.items)) }
{
    let NodePair { node, term } = next;
    if bank.ground(node.term) {
        return Ok(node.term == term);
    }
    match bank.shape(node.term) {
        Shape::Var(var) => {
            let side = node.side;
            is_numbered(bank, order, Variable { side, var }, term)
        }
        Shape::App => open(bank, bindings, pairs, next),
    }
}

// Compares what the node becomes at its root.
fn compare_next(
    bank: &Bank,
    bindings: &Bindings,
    pairs: &mut Vec<NodePair>,
    order: &mut Vec<Variable>,
    next: NodePair,
) -> Result<bool, Memory>
    requires bindings { AreBindings bank.now bindings.now.entries }
    requires node { next.node.term < length bank.now.trees }
    requires term { next.term < length bank.now.trees }
    ensures { IfOk result (λ r. r ≡ true → (rest : List NodePair) → IsStepUnder bank.now bindings.now.entries (next ∷ reverse pairs.old.items ++ rest) (reverse pairs.new.items ++ rest) (numbers_of order.old.items) (numbers_of order.new.items)) }
{
    let node = bindings.follow(bank, next.node);
    let term = next.term;
    compare_roots(bank, bindings, pairs, order, NodePair { node, term })
}

// Compares the pairs, and those of their arguments, up to the first that differ.
fn compare_all(
    bank: &Bank,
    bindings: &Bindings,
    pairs: &mut Vec<NodePair>,
    order: &mut Vec<Variable>,
) -> Result<bool, Memory>
    requires bindings { AreBindings bank.now bindings.now.entries }
    requires pairs { ArePairs bank.now (reverse pairs.old.items) }
    ensures { IfOk result (λ r. r ≡ true → (rest : List NodePair) → IsStepUnder bank.now bindings.now.entries (reverse pairs.old.items ++ rest) rest (numbers_of order.old.items) (numbers_of order.new.items)) }
{
    for _ in 0..STEPS {
        let Some(next) = pairs.pop() else {
            return Ok(true);
        };
        if !compare_next(bank, bindings, pairs, order, next)? {
            return Ok(false);
        }
    }
    Ok(false)
}

// Compares the atom of a literal with the one that it is to become, from the roots down. One without variables stays what it is.
// The two atoms are not put on the list, their arguments are.
fn compare_atom(
    bank: &Bank,
    of: &Instance<'_>,
    room: &mut Comparison,
    l: &IdLiteral,
    other: &IdLiteral,
) -> Result<bool, Memory>
    requires bindings { AreBindings bank.now of.now.bindings.now.entries }
    requires node { l.now.atom < length bank.now.trees }
    requires term { other.now.atom < length bank.now.trees }
    ensures { IfOk result (λ r. r ≡ true → (rest : List NodePair) → IsStepUnder bank.now of.now.bindings.now.entries (record { node = on of.now.side l.now.atom; term = other.now.atom } ∷ rest) rest (numbers_of room.old.order.items) (numbers_of room.new.order.items)) }
{
    if l.atom == other.atom && bank.ground(l.atom) {
        return Ok(true);
    }
    room.pairs.clear();
    let side = of.side;
    let node = Bound { side, term: l.atom };
    let next = NodePair {
        node,
        term: other.atom,
    };
    if !compare_next(bank, of.bindings, &mut room.pairs, &mut room.order, next)? {
        return Ok(false);
    }
    compare_all(bank, of.bindings, &mut room.pairs, &mut room.order)
}

// Compares the atoms of the literals, one after the other.
fn compare_atoms(
    bank: &Bank,
    of: &Instance<'_>,
    room: &mut Comparison,
    literals: &[IdLiteral],
    others: &[IdLiteral],
) -> Result<bool, Memory>
    requires bindings { AreBindings bank.now of.now.bindings.now.entries }
    requires nodes { AreIds bank.now (map (λ l. l.atom) literals.now) }
    requires terms { AreIds bank.now (map (λ l. l.atom) others.now) }
    requires counted { length literals.now ≡ length others.now }
    ensures { IfOk result (λ r. r ≡ true → (rest : List NodePair) → IsStepUnder bank.now of.now.bindings.now.entries (pairs_of of.now.side (map (λ l. l.atom) literals.now) (map (λ l. l.atom) others.now) ++ rest) rest (numbers_of room.old.order.items) (numbers_of room.new.order.items)) }
{
    for i in 0..literals.len() {
        if !compare_atom(bank, of, room, &literals[i], &others[i])? {
            return Ok(false);
        }
    }
    Ok(true)
}

// Whether the literals have the same signs.
fn has_signs(literals: &[IdLiteral], others: &[IdLiteral]) -> bool
    requires { length literals.now ≡ length others.now }
    ensures { result ≡ true → with_atoms literals.now (map (λ l. l.atom) others.now) ≡ others.now }
{
    for i in 0..literals.len() {
        if literals[i].positive != others[i].positive {
            return false;
        }
    }
    true
}

// Whether no literal is there twice.
fn has_no_repeats(literals: &[IdLiteral]) -> bool
    ensures { result ≡ true → distinct id_eq literals.now ≡ literals.now }
{
    for i in 0..literals.len() {
        if literals[..i].contains(&literals[i]) {
            return false;
        }
    }
    true
}

// Whether the literals are few, as many as the others, of the same signs, and each another one.
fn looks_alike(literals: &[IdLiteral], others: &[IdLiteral]) -> bool
    ensures { result ≡ true → (length literals.now ≡ length others.now) × (others.now ≡ distinct id_eq (with_atoms literals.now (map (λ l. l.atom) others.now))) }
{
    literals.len() == others.len()
        && others.len() <= FEW
        && has_signs(literals, others)
        && has_no_repeats(others)
}

// Whether the clause was seen to be the canonical form of the instance.
fn is_conclusion(
    room: &mut Comparison,
    bank: &Bank,
    of: &Instance<'_>,
    clause: &IdClause,
) -> Result<bool, Memory>
    requires member { IsClauseOf bank.now of.now.clause.now }
    requires clause { IsClauseOf bank.now clause.now }
    requires bindings { AreBindings bank.now of.now.bindings.now.entries }
    ensures { IfOk result (λ r. r ≡ true → (s : Sided) → IsResolvedBy bank.now of.now.bindings.now.entries s → IsClauseAt bank.now clause.now (canonical_form (under (of_side s of.now.side) (clause_at bank.now of.now.clause.now)))) }
{
    let literals = of.clause.as_slice();
    let others = clause.as_slice();
    if !looks_alike(literals, others) {
        return Ok(false);
    }
    bank.distinct();
    room.order.clear();
    compare_atoms(bank, of, room, literals, others)
}

/// Whether the clause is the instance, which is built only where that is not seen without it.
pub fn is_instance(
    workspace: &mut Workspace,
    bank: &mut Bank,
    room: &mut Comparison,
    of: &Instance<'_>,
    clause: &IdClause,
) -> Result<bool, Memory>
    requires member { IsClauseOf bank.old of.now.clause.now }
    requires clause { IsClauseOf bank.old clause.now }
    requires bindings { AreBindings bank.old of.now.bindings.now.entries }
    ensures instance { IfOk result (IsInstanceOf bank.old of.now.bindings.now.entries of.now.side of.now.clause.now clause.now) }
    ensures extends { Extends bank.old bank.new }
    ensures formed { AreFormed bank.old → AreTerms bank.old of.now.bindings.now.entries → AreFormed bank.new }
{
    if is_conclusion(room, bank, of, clause)? {
        return Ok(true);
    }
    let built = workspace.conclude_clause(bank, of.bindings, of.side, of.clause)?;
    Ok(same_trees(bank, &built, clause))
}
