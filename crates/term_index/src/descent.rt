// The way of an atom down the tree, label by label, and the exits that lead along it.
ghost use Rattle.std.specs.Prelude.{◌≡◌, ◌<◌, ◌+◌, ◌++◌, ◌∷◌, [], List, length, OnOk, reverse};
ghost use Rattle.term_bank.specs.Forest.{tree_at};
ghost use Rattle.term_index.specs.declared.label.Label.{Label};
ghost use Rattle.term_index.specs.declared.node.Edge.{Edge};
ghost use Rattle.term_index.specs.Labels.{label_of};
ghost use Rattle.term_index.specs.Numbered.{IsKnown};
ghost use Rattle.term_index.specs.Paths.{IsChild};
ghost use Rattle.term_index.specs.Left.{IsDescent, AreBelow, IsSorted, Enters, Closes, left_size, AreLeftNumbered};

use crate::node::Span;
use crate::number::short;
use inst_logic::Memory;
use std::alloc::Global;
use term_bank::{Bank, TermId};

/// A term that began at the node, and ends when so many terms are left.
#[derive(Clone, Copy, Debug, PartialEq, Eq)]
pub struct Open {
    pub begin: u32,
    pub height: usize,
}

/// The terms that are left, the last one first; those of which the symbol is passed and some argument is left, the outer ones
/// first; and the exits that have ended, the first edge before the terms, and of these the inner ones first.
#[derive(Drop)]
pub struct Descent {
    pub left: Vec<TermId>,
    pub opened: Vec<Open>,
    pub closed: Vec<Span>,
}

// Lists without anything in them, which take no memory.
pub fn no_descent(alloc: Global) -> Descent {
    Descent {
        left: Vec::new(alloc),
        opened: Vec::new(alloc),
        closed: Vec::new(alloc),
    }
}

// An atom of which no symbol is passed, whatever the lists held before. They keep their room.
pub fn begin(descent: &mut Descent, atom: TermId) -> Result<(), Memory>
    ensures { OnOk result ((descent.new.left.items ≡ atom ∷ []) × (descent.new.opened.items ≡ []) × (descent.new.closed.items ≡ [])) }
{
    descent.left.clear();
    descent.opened.clear();
    descent.closed.clear();
    descent.left.push(atom)?;
    Ok(())
}

// The ids, so that the first one comes off first.
fn push_args(left: &mut Vec<TermId>, args: &[TermId]) -> Result<(), Memory>
    ensures { OnOk result (left.new.items ≡ left.old.items ++ reverse args.now) }
{
    for i in (0..args.len()).rev() {
        left.push(args[i])?;
    }
    Ok(())
}

// A term begins at the node. One from the root is the whole atom, and in its place the first edge alone is told: the leaf tells
// the atom.
fn enter(
    opened: &mut Vec<Open>,
    closed: &mut Vec<Span>,
    node: usize,
    next: usize,
    height: usize,
) -> Result<(), Memory>
    requires sorted { IsSorted opened.old.items }
    requires below { AreBelow (height + 1) opened.old.items }
    ensures enters { OnOk result (Enters opened.old.items opened.new.items closed.old.items closed.new.items node next height) }
    ensures sorted { OnOk result (IsSorted opened.new.items) }
{
    let begin = short(node)?;
    if node == 0 {
        let end = short(next)?;
        closed.push(Span { begin, end })?;
        return Ok(());
    }
    opened.push(Open { begin, height })?;
    Ok(())
}

// The terms that end where so many are left end at this node.
fn close(
    opened: &mut Vec<Open>,
    closed: &mut Vec<Span>,
    height: usize,
    node: usize,
) -> Result<(), Memory>
    requires { IsSorted opened.old.items }
    ensures closes { OnOk result (Closes opened.old.items opened.new.items closed.old.items closed.new.items node height) }
    ensures below { OnOk result (AreBelow height opened.new.items) }
{
    while let Some(last) = opened.pop() {
        if last.height < height {
            opened.push(last)?;
            return Ok(());
        }
        closed.push(Span {
            begin: last.begin,
            end: short(node)?,
        })?;
    }
    Ok(())
}

// Passes the symbol of the term, which leads from the node to the next.
pub fn pass(
    descent: &mut Descent,
    bank: &Bank,
    id: TermId,
    node: usize,
    next: usize,
) -> Result<(), Memory>
    requires id { id < length bank.now.trees }
    requires sorted { IsSorted descent.old.opened.items }
    requires below { AreBelow (length descent.old.left.items + 1) descent.old.opened.items }
    ensures descent { OnOk result ((es : List Edge) (all : List Label) → IsDescent bank.now es all node (descent.old.left.items ++ id ∷ []) descent.old.opened.items descent.old.closed.items
        → IsChild es node (label_of bank.now (tree_at bank.now id)) next → IsDescent bank.now es all next descent.new.left.items descent.new.opened.items descent.new.closed.items) }
    ensures below { OnOk result (AreBelow (length descent.new.left.items) descent.new.opened.items) }
    ensures smaller { OnOk result (left_size bank.now descent.new.left.items < left_size bank.now (descent.old.left.items ++ id ∷ [])) }
    ensures numbered { OnOk result (IsKnown bank.now (tree_at bank.now id) → AreLeftNumbered bank.now descent.new.left.items → AreLeftNumbered bank.now (descent.old.left.items ++ id ∷ [])) }
{
    let height = descent.left.len();
    enter(&mut descent.opened, &mut descent.closed, node, next, height)?;
    push_args(&mut descent.left, bank.args(id))?;
    let left = descent.left.len();
    close(&mut descent.opened, &mut descent.closed, left, next)?;
    Ok(())
}
