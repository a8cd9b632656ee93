// A copy of a query, which may share its parts: each of its nodes once. A walk goes on while the bank grows, so it can't
// borrow the bank.
ghost use Rattle.std.specs.Prelude.{◌≡◌, ◌<◌, ◌++◌, ◌∷◌, ℕ, length, IfOk, OnOk, All, map};
ghost use Rattle.term_bank.specs.Forest.{tree_at};
ghost use Rattle.term_index.specs.Copies.{CopiesArgs, IsCopyOf, IsQueryOf};

use crate::ids::{FEW, Ids};
use crate::label::{Label, label_at};
use crate::walk::Frame;
use inst_logic::Memory;
use std::alloc::Global;
use std::marker::Model;
use term_bank::{Bank, TermId};

/// A label, and where the numbers of its arguments begin.
#[derive(Clone, Copy, Debug, PartialEq, Eq)]
pub struct QueryNode {
    pub label: Label,
    pub first: usize,
}

/// The nodes, and the numbers of their arguments, one list after the other.
#[derive(Drop)]
pub struct Query {
    pub nodes: Vec<QueryNode>,
    pub args: Vec<usize>,
}

impl Model for Query {
    ghost use Rattle.term_index.specs.Run.{Graph};

    ghost Value = { Graph };

    ghost view = { λ q. record { nodes = q.nodes.items; args = q.args.items } };
}

// The numbers of the ids. New ones go last.
fn copy_args(ids: &mut Ids, numbers: &mut Vec<usize>, args: &[TermId]) -> Result<(), Memory>
    ensures { OnOk result (CopiesArgs ids.old ids.new numbers.old.items numbers.new.items args.now) }
{
    for a in args {
        numbers.push(ids.number_of(*a)?)?;
    }
    Ok(())
}

// The nodes of the query, each once: the first is its root, which is also the first argument.
fn build_query(alloc: Global, bank: &Bank, query: TermId) -> Result<Query, Memory>
    requires { query < length bank.now.trees }
    ensures { IfOk result (IsCopyOf bank.now query) }
{
    let mut ids = Ids::new(alloc, query);
    let mut nodes = Vec::with_capacity(alloc, FEW)?;
    let mut args = Vec::with_capacity(alloc, FEW)?;
    args.push(0)?;
    let mut next = 0;
    while next < ids.len() {
        let id = ids.id_at(next);
        nodes.push(QueryNode {
            label: label_at(bank, id)?,
            first: args.len(),
        })?;
        copy_args(&mut ids, &mut args, bank.args(id))?;
        next += 1;
    }
    Ok(Query { nodes, args })
}

/// The query of a walk with these frames: a copy, and nothing where the walk has none left and ends at once.
pub fn query_of(
    alloc: Global,
    bank: &Bank,
    query: TermId,
    stack: &Vec<Frame>,
) -> Result<Query, Memory>
    requires { query < length bank.now.trees }
    ensures { IfOk result (IsQueryOf bank.now query stack.now.items) }
{
    if stack.is_empty() {
        return Ok(Query {
            nodes: Vec::new(alloc),
            args: Vec::new(alloc),
        });
    }
    build_query(alloc, bank, query)
}
