// Numbers for symbols and nodes. These are functions over one set each, so that what is done with symbols needs no word on
// the nodes.
ghost use Rattle.std.specs.Prelude.{◌≡◌, ◌<◌, ◌+◌, min, ◌^◌, IfOk, IfSome, OnOk, OnErr, length, sum_by, fold, None};
ghost use Rattle.std.specs.List.{All};
ghost use Rattle.inst_logic.specs.Measure.{function_count};
ghost use Rattle.term_bank.specs.Forest.{symbol_at};
ghost use Rattle.term_bank.specs.Greatest.{greater};
ghost use Rattle.term_bank.specs.declared.node.Node.TheVariants.{Var, Many};
ghost use Rattle.term_bank.specs.Nodes.{node_in, measures_in, node_of, SymbolsGrow, IsNumbered};

use crate::boxed_list::BoxedList;
use crate::id::TermId;
use crate::measure_list::MeasureList;
use crate::node::{Measures, Node};
use indexmap::IndexSet;
use inst_logic::{Kind, Memory, Sym};
use std::alloc::Global;

// The number of the symbol. A new one goes last.
pub fn symbol_number(symbols: &mut IndexSet<Sym>, sym: &Sym) -> Result<usize, Memory>
    ensures within { IfOk result (λ i. i < length symbols.new.keys) }
    ensures at { IfOk result (λ i. symbol_at symbols.new.keys i ≡ sym.now) }
    ensures grown { SymbolsGrow symbols.old.keys symbols.new.keys sym.now }
{
    if let Some(i) = symbols.get_index_of(sym) {
        return Ok(i);
    }
    let number = symbols.len();
    symbols.insert(sym.clone()?)?;
    Ok(number)
}

// The symbol of this number.
pub fn symbol_in<'a>(symbols: &'a IndexSet<Sym>, number: usize) -> &'a Sym
    requires { number < length symbols.now.keys }
    ensures { result.now ≡ symbol_at symbols.now.keys number }
{
    match symbols.get_index(number) {
        Some(sym) => sym,
        None => unreachable!(),
    }
}

// The kind of the symbol of this number.
pub fn kind_at(symbols: &IndexSet<Sym>, number: usize) -> Kind
    requires { number < length symbols.now.keys }
    ensures { result ≡ (symbol_at symbols.now.keys number).kind }
{
    symbol_in(symbols, number).kind
}

// Refuses where there is no number for another node, or no memory for what stands beside it.
pub fn make_room(nodes: &IndexSet<Node>, measures: &mut MeasureList) -> Result<(), Memory>
    ensures items { measures.new.items ≡ measures.old.items }
    ensures number { OnOk result (length nodes.now.keys < 2 ^ 32) }
    ensures room { OnOk result (0 < measures.new.room) }
{
    if nodes.len() > u32::MAX as usize {
        return Err(Memory);
    }
    measures.reserve()
}

// The number in four bytes; want of memory where it needs more.
fn in_four_bytes(number: usize) -> Result<u32, Memory>
    ensures { IfOk result (λ n. n ≡ number) }
{
    match u32::try_from(number) {
        Ok(n) => Ok(n),
        Err(_) => Err(Memory),
    }
}

// The number of the node, and whether it is new. A new one goes last.
fn node_number(nodes: &mut IndexSet<Node>, node: Node) -> Result<(TermId, bool), Memory>
    requires { length nodes.old.keys < 2 ^ 32 }
    ensures numbered { IfOk result (λ r. IsNumbered nodes.old.keys nodes.new.keys node r.0 r.1) }
    ensures held { OnErr result (nodes.new.keys ≡ nodes.old.keys) }
{
    let (number, new) = nodes.insert_full(node)?;
    Ok((TermId::of(number), new))
}

// The number of the node, where it is there.
fn found_number(nodes: &IndexSet<Node>, node: &Node) -> Option<TermId>
    requires { length nodes.now.keys < 2 ^ 32 }
    ensures { IfSome result (λ i. (i < length nodes.now.keys) × (node_in nodes.now.keys i ≡ node.now)) }
{
    match nodes.get_index_of(node) {
        None => None,
        Some(number) => Some(TermId::of(number)),
    }
}

// The list of the node's arguments, for the next look-up.
fn room_of(node: Node) -> Option<BoxedList<TermId>> {
    match node {
        Node::Many(_, args) => Some(args),
        _ => None,
    }
}

// These ids in the list of the room, or in a new one where there is none.
fn list_of(
    alloc: Global,
    args: &[TermId],
    room: &mut Option<BoxedList<TermId>>,
) -> Result<BoxedList<TermId>, Memory>
    ensures { IfOk result (λ list. list ≡ args.now) }
{
    let mut list = match room.take() {
        Some(list) => list,
        None => BoxedList::new(alloc)?,
    };
    list.fill(args)?;
    Ok(list)
}

// The number of the application to more than two arguments, where it is there. They are copied into the room, so that no
// look-up takes memory for them once the room is as long as the longest list.
fn found_many(
    alloc: Global,
    nodes: &IndexSet<Node>,
    number: u32,
    args: &[TermId],
    room: &mut Option<BoxedList<TermId>>,
) -> Result<Option<TermId>, Memory>
    requires { length nodes.now.keys < 2 ^ 32 }
    ensures { IfOk result (λ found. IfSome found (λ i. (i < length nodes.now.keys) × (node_in nodes.now.keys i ≡ Many number args.now))) }
{
    let node = Node::Many(number, list_of(alloc, args, room)?);
    let found = found_number(nodes, &node);
    *room = room_of(node);
    Ok(found)
}

// The number of the application to more than two arguments, and whether it is new. They are copied for a new one alone.
fn many_number(
    alloc: Global,
    nodes: &mut IndexSet<Node>,
    number: u32,
    args: &[TermId],
    room: &mut Option<BoxedList<TermId>>,
) -> Result<(TermId, bool), Memory>
    requires { length nodes.old.keys < 2 ^ 32 }
    ensures numbered { IfOk result (λ r. IsNumbered nodes.old.keys nodes.new.keys (Many number args.now) r.0 r.1) }
    ensures held { OnErr result (nodes.new.keys ≡ nodes.old.keys) }
{
    match found_many(alloc, nodes, number, args, room)? {
        Some(id) => Ok((id, false)),
        None => node_number(nodes, Node::Many(number, BoxedList::of_slice(alloc, args)?)),
    }
}

// The number of the application of the symbol of this number, and whether it is new. One look-up, and for a new one of more than
// two arguments another. It refuses a number that needs more than four bytes.
pub fn application_number(
    alloc: Global,
    nodes: &mut IndexSet<Node>,
    number: usize,
    args: &[TermId],
    room: &mut Option<BoxedList<TermId>>,
) -> Result<(TermId, bool), Memory>
    requires { length nodes.old.keys < 2 ^ 32 }
    ensures numbered { IfOk result (λ r. IsNumbered nodes.old.keys nodes.new.keys (node_of number args.now) r.0 r.1) }
    ensures held { OnErr result (nodes.new.keys ≡ nodes.old.keys) }
{
    let number = in_four_bytes(number)?;
    match args {
        [] => node_number(nodes, Node::Constant(number)),
        [only] => node_number(nodes, Node::Unary(number, [*only])),
        [first, second] => node_number(nodes, Node::Binary(number, [*first, *second])),
        _ => many_number(alloc, nodes, number, args, room),
    }
}

// The number of the variable, and whether it is new.
pub fn variable_number(nodes: &mut IndexSet<Node>, v: usize) -> Result<(TermId, bool), Memory>
    requires { length nodes.old.keys < 2 ^ 32 }
    ensures numbered { IfOk result (λ r. IsNumbered nodes.old.keys nodes.new.keys (Var v) r.0 r.1) }
    ensures held { OnErr result (nodes.new.keys ≡ nodes.old.keys) }
{
    node_number(nodes, Node::Var(v))
}

// What is stored beside the node.
pub fn measures_at(measures: &MeasureList, id: TermId) -> Measures
    requires { id < length measures.now.items }
    ensures { result ≡ measures_in measures.now.items id }
{
    measures.at(id.number())
}

// The node of the id.
pub fn node_at<'a>(nodes: &'a IndexSet<Node>, id: TermId) -> &'a Node
    requires { id < length nodes.now.keys }
    ensures { result.now ≡ node_in nodes.now.keys id }
{
    match nodes.get_index(id.number()) {
        Some(node) => node,
        None => unreachable!(),
    }
}

// The measures of an application of a symbol of this kind.
pub fn application_measures(all: &MeasureList, kind: Kind, args: &[TermId]) -> Measures
    requires { All (λ i. i < length all.now.items) args.now }
    ensures size { result.size ≡ min (sum_by (λ i. (measures_in all.now.items i).size) args.now + 1) u64.MAX }
    ensures weight { result.weight ≡ min (sum_by (λ i. (measures_in all.now.items i).weight) args.now + function_count kind) u64.MAX }
    ensures greatest { result.greatest ≡ fold (λ g i. greater g (measures_in all.now.items i).greatest) None args.now }
{
    let mut size: u64 = 1;
    let mut weight: u64 = match kind {
        Kind::Function => 1,
        Kind::Predicate | Kind::Equality => 0,
    };
    let mut greatest = None;
    for a in args {
        let measures = measures_at(all, *a);
        size = size.saturating_add(measures.size);
        weight = weight.saturating_add(measures.weight);
        greatest = greatest.max(measures.greatest);
    }
    Measures {
        size,
        weight,
        greatest,
    }
}
