// A bank of trees, each stored once and named by its number (hash consing; Ershov, On programming of arithmetic
// operations, 1958; Goto, Monocopy and associative algorithms in extended Lisp, 1974).
ghost use Rattle.std.specs.Prelude.{◌≡◌, ◌↔◌, IsTrue, ◌<◌, [], length, false, true, min, map, take, IfOk, IfSome, OnOk, OnErr, option_copied, option_map};
ghost use Rattle.std.specs.List.{All};
ghost use Rattle.inst_logic.specs.Tree.{var, app, of_list};
ghost use Rattle.inst_logic.specs.Measure.{tree_size, tree_weight};
ghost use Rattle.inst_logic.specs.Substitution.{tree_vars};
ghost use Rattle.inst_logic.specs.Unifiers.{IsApplication};
ghost use Rattle.term_bank.specs.Forest.{tree_at, nth, symbol_at, number_of, IsAt, AreIds, AreDistinct, Extends, ExtendsTrees, KeepsPlaces, no_symbol, IsFormed, AreFormed, AreFormedTrees, symbol_of, arguments_of, with_arguments, is_ground};
ghost use Rattle.term_bank.specs.Greatest.{IsGreatest};
ghost use Rattle.term_bank.specs.Nodes.{trees_of, IsBank};
ghost use Rattle.term_bank.specs.Shapes.{shape_of, IsRootOf};

use crate::boxed_list::BoxedList;
use crate::id::TermId;
use crate::measure_list::MeasureList;
use crate::node::{Measures, Node, Parts};
use crate::store::{
    application_measures, application_number, kind_at, make_room, measures_at, node_at, symbol_in,
    symbol_number, variable_number,
};
use indexmap::IndexSet;
use inst_logic::{Memory, Sym};
use std::alloc::Global;
use std::marker::Model;

/// Terms and atoms, each tree once. Contracts see the list of its trees by their ids.
///
/// A bank has room for 4,294,967,296 trees and as many symbols, and for each variable that has a number. After want of memory or
/// room the trees are those from before, and each call that can want memory wants it.
#[derive(Drop)]
pub struct Bank {
    pub(crate) alloc: Global,
    symbols: IndexSet<Sym>,
    nodes: IndexSet<Node>,
    // Of each node, one for one.
    measures: MeasureList,
    // Where more than two arguments of an application are put to look it up.
    room: Option<BoxedList<TermId>>,
    pub(crate) spent: bool,
}

impl Model for Bank {
    ghost use Rattle.term_bank.specs.Forest.{Forest, forest_code};
    ghost use Rattle.term_bank.specs.Nodes.{trees_of, IsBank};

    ghost Value = { Forest };

    ghost coded = { forest_code };

    ghost view = { λ b. record { trees = trees_of b.symbols.keys b.nodes.keys; symbols = b.symbols.keys; spent = b.spent } };

    ghost invariant = { λ b. IsBank b.symbols.keys b.nodes.keys b.measures.items };
}

/// Whether a tree is a variable or an application.
#[derive(Clone, Copy, Debug, PartialEq, Eq)]
pub enum Shape {
    /// A variable with its number, from 0.
    Var(usize),
    /// A symbol with its arguments.
    App,
}

/// A tree at its root.
#[derive(Clone, Copy)]
pub enum Root<'a> {
    /// A variable with its number, from 0.
    Var(usize),
    /// A symbol with the ids of its arguments in their order.
    App(&'a Sym, &'a [TermId]),
}

fn insert_variable(
    symbols: &IndexSet<Sym>,
    nodes: &mut IndexSet<Node>,
    measures: &mut MeasureList,
    v: usize,
) -> Result<TermId, Memory>
    requires { IsBank symbols.now.keys nodes.old.keys measures.old.items }
    ensures bank { IsBank symbols.now.keys nodes.new.keys measures.new.items }
    ensures extends { ExtendsTrees (trees_of symbols.now.keys nodes.old.keys) (trees_of symbols.now.keys nodes.new.keys) }
    ensures formed { AreFormedTrees (trees_of symbols.now.keys nodes.old.keys) → AreFormedTrees (trees_of symbols.now.keys nodes.new.keys) }
    ensures at { IfOk result (λ i. (i < length (trees_of symbols.now.keys nodes.new.keys)) × (nth (trees_of symbols.now.keys nodes.new.keys) i ≡ var v)) }
    ensures held { OnErr result (trees_of symbols.now.keys nodes.new.keys ≡ trees_of symbols.now.keys nodes.old.keys) }
{
    make_room(nodes, measures)?;
    let (id, new) = variable_number(nodes, v)?;
    if !new {
        return Ok(id);
    }
    measures.push_reserved(Measures {
        size: 1,
        weight: 0,
        greatest: Some(v),
    });
    Ok(id)
}

// The application of the symbol of this number. Most are there already: those are found before anything is measured, and before
// any list is made but in the kept room.
fn insert_numbered(
    alloc: Global,
    symbols: &IndexSet<Sym>,
    nodes: &mut IndexSet<Node>,
    measures: &mut MeasureList,
    number: usize,
    args: &[TermId],
    room: &mut Option<BoxedList<TermId>>,
) -> Result<TermId, Memory>
    requires bank { IsBank symbols.now.keys nodes.old.keys measures.old.items }
    requires number { number < length symbols.now.keys }
    requires within { All (λ i. i < length (trees_of symbols.now.keys nodes.old.keys)) args.now }
    ensures bank { IsBank symbols.now.keys nodes.new.keys measures.new.items }
    ensures extends { ExtendsTrees (trees_of symbols.now.keys nodes.old.keys) (trees_of symbols.now.keys nodes.new.keys) }
    ensures formed { AreFormedTrees (trees_of symbols.now.keys nodes.old.keys) → IsFormed (app (symbol_at symbols.now.keys number) (of_list (map (nth (trees_of symbols.now.keys nodes.old.keys)) args.now))) → AreFormedTrees (trees_of symbols.now.keys nodes.new.keys) }
    ensures at { IfOk result (λ i. (i < length (trees_of symbols.now.keys nodes.new.keys)) × (nth (trees_of symbols.now.keys nodes.new.keys) i ≡ app (symbol_at symbols.now.keys number) (of_list (map (nth (trees_of symbols.now.keys nodes.old.keys)) args.now)))) }
    ensures held { OnErr result (trees_of symbols.now.keys nodes.new.keys ≡ trees_of symbols.now.keys nodes.old.keys) }
{
    make_room(nodes, measures)?;
    let (id, new) = application_number(alloc, nodes, number, args, room)?;
    if !new {
        return Ok(id);
    }
    let kind = kind_at(symbols, number);
    let found = application_measures(measures, kind, args);
    measures.push_reserved(found);
    Ok(id)
}

fn insert_application(
    alloc: Global,
    symbols: &mut IndexSet<Sym>,
    nodes: &mut IndexSet<Node>,
    measures: &mut MeasureList,
    sym: &Sym,
    args: &[TermId],
    room: &mut Option<BoxedList<TermId>>,
) -> Result<TermId, Memory>
    requires bank { IsBank symbols.old.keys nodes.old.keys measures.old.items }
    requires within { All (λ i. i < length (trees_of symbols.old.keys nodes.old.keys)) args.now }
    ensures bank { IsBank symbols.new.keys nodes.new.keys measures.new.items }
    ensures extends { ExtendsTrees (trees_of symbols.old.keys nodes.old.keys) (trees_of symbols.new.keys nodes.new.keys) }
    ensures symbols { KeepsPlaces no_symbol symbols.old.keys symbols.new.keys }
    ensures formed { AreFormedTrees (trees_of symbols.old.keys nodes.old.keys) → IsFormed (app sym.now (of_list (map (nth (trees_of symbols.old.keys nodes.old.keys)) args.now))) → AreFormedTrees (trees_of symbols.new.keys nodes.new.keys) }
    ensures at { IfOk result (λ i. (i < length (trees_of symbols.new.keys nodes.new.keys)) × (nth (trees_of symbols.new.keys nodes.new.keys) i ≡ app sym.now (of_list (map (nth (trees_of symbols.old.keys nodes.old.keys)) args.now)))) }
    ensures held { OnErr result (trees_of symbols.new.keys nodes.new.keys ≡ trees_of symbols.old.keys nodes.old.keys) }
{
    let number = symbol_number(symbols, sym)?;
    insert_numbered(alloc, symbols, nodes, measures, number, args, room)
}

impl Bank {
    /// An empty bank, which takes no memory.
    pub fn new(alloc: Global) -> Bank
        ensures { result ≡ record { trees = []; symbols = []; spent = false } }
    {
        Bank {
            alloc,
            symbols: IndexSet::new(alloc),
            nodes: IndexSet::new(alloc),
            measures: MeasureList::new(alloc),
            room: None,
            spent: false,
        }
    }

    /// How many trees. Their ids have the numbers below it, and equal trees have equal ids.
    pub fn len(&self) -> usize
        ensures len { result ≡ length self.now.trees }
        ensures distinct { AreDistinct self.now.trees }
    {
        self.nodes.len()
    }

    /// Equal trees have equal ids.
    pub fn distinct(&self)
        ensures { AreDistinct self.now.trees }
    {
        let _ = self.len();
    }

    /// The id of the variable of this number, which counts from 0. One look-up.
    pub fn var(&mut self, v: usize) -> Result<TermId, Memory>
        ensures at { IfOk result (λ id. IsAt self.new id (var v)) }
        ensures extends { Extends self.old self.new }
        ensures formed { AreFormed self.old → AreFormed self.new }
        ensures ok { OnOk result ((self.old.spent ≡ false) × (self.new.spent ≡ false)) }
        ensures err { OnErr result (self.new.spent ≡ true) }
        ensures held { OnErr result (self.new.trees ≡ self.old.trees) }
    {
        if self.spent {
            return Err(Memory);
        }
        let result = insert_variable(&self.symbols, &mut self.nodes, &mut self.measures, v);
        self.spent = result.is_err();
        result
    }

    /// The id of the symbol applied to the terms of these ids; the bank stays well formed where they are as many as its
    /// arity. The symbol is copied where it is new. Two look-ups, of the symbol by its name and of the node by its arguments,
    /// and one more where the tree is new and has more than two arguments.
    pub fn app(&mut self, sym: &Sym, args: &[TermId]) -> Result<TermId, Memory>
        requires { AreIds self.old args.now }
        ensures at { IfOk result (λ id. IsAt self.new id (app sym.now (of_list (map (tree_at self.old) args.now)))) }
        ensures extends { Extends self.old self.new }
        ensures formed { AreFormed self.old → IsFormed (app sym.now (of_list (map (tree_at self.old) args.now))) → AreFormed self.new }
        ensures ok { OnOk result ((self.old.spent ≡ false) × (self.new.spent ≡ false)) }
        ensures err { OnErr result (self.new.spent ≡ true) }
        ensures held { OnErr result (self.new.trees ≡ self.old.trees) }
    {
        if self.spent {
            return Err(Memory);
        }
        let result = insert_application(
            self.alloc,
            &mut self.symbols,
            &mut self.nodes,
            &mut self.measures,
            sym,
            args,
            &mut self.room,
        );
        self.spent = result.is_err();
        result
    }

    /// The id of the symbol at the root of `like`, which is no variable, applied to the terms of these ids; the bank stays
    /// well formed where they are as many as its arity. The symbol is neither copied nor looked up: one look-up, of the node,
    /// and one more where the tree is new and has more than two arguments.
    pub fn app_like(&mut self, like: TermId, args: &[TermId]) -> Result<TermId, Memory>
        requires within { like < length self.old.trees }
        requires application { IsApplication (tree_at self.old like) }
        requires ids { AreIds self.old args.now }
        ensures at { IfOk result (λ id. IsAt self.new id (with_arguments (tree_at self.old like) (map (tree_at self.old) args.now))) }
        ensures extends { Extends self.old self.new }
        ensures formed { AreFormed self.old → IsFormed (with_arguments (tree_at self.old like) (map (tree_at self.old) args.now)) → AreFormed self.new }
        ensures ok { OnOk result ((self.old.spent ≡ false) × (self.new.spent ≡ false)) }
        ensures err { OnErr result (self.new.spent ≡ true) }
        ensures held { OnErr result (self.new.trees ≡ self.old.trees) }
    {
        if self.spent {
            return Err(Memory);
        }
        let number = match node_at(&self.nodes, like).parts() {
            Parts::Var(_) => unreachable!(),
            Parts::App(number, _) => number,
        };
        let result = insert_numbered(
            self.alloc,
            &self.symbols,
            &mut self.nodes,
            &mut self.measures,
            number,
            args,
            &mut self.room,
        );
        self.spent = result.is_err();
        result
    }

    /// Keeps the first `len` trees, and all symbols. The ids of the others may become those of other trees, so whoever has one must
    /// forget it: `cut_backs` says what stays. Time follows the number of trees that go.
    pub fn truncate(&mut self, len: usize)
        ensures trees { self.new.trees ≡ take len self.old.trees }
        ensures symbols { self.new.symbols ≡ self.old.symbols }
        ensures spent { self.new.spent ≡ self.old.spent }
    {
        self.nodes.truncate(len);
        self.measures.truncate(len);
    }

    // After want of memory the first `len` trees stay.
    pub(crate) fn give_up(&mut self, len: usize)
        ensures trees { self.new.trees ≡ take len self.old.trees }
        ensures symbols { self.new.symbols ≡ self.old.symbols }
        ensures spent { self.new.spent ≡ true }
    {
        self.truncate(len);
        self.spent = true;
    }

    /// What stands at the root: a variable with its number, or an application.
    pub fn shape(&self, id: TermId) -> Shape
        requires { id < length self.now.trees }
        ensures { result ≡ shape_of (tree_at self.now id) }
    {
        match node_at(&self.nodes, id).parts() {
            Parts::Var(v) => Shape::Var(v),
            Parts::App(_, _) => Shape::App,
        }
    }

    /// The tree at its root, in one reading that takes no memory. The ids of arguments are below the tree's own.
    pub fn root(&self, id: TermId) -> Root<'_>
        requires { id < length self.now.trees }
        ensures { IsRootOf self.now id result }
    {
        match node_at(&self.nodes, id).parts() {
            Parts::Var(v) => Root::Var(v),
            Parts::App(number, args) => Root::App(symbol_in(&self.symbols, number), args),
        }
    }

    /// The symbol of an application, and `None` for a variable.
    pub fn sym(&self, id: TermId) -> Option<&Sym>
        requires { id < length self.now.trees }
        ensures { option_copied result ≡ symbol_of (tree_at self.now id) }
    {
        match node_at(&self.nodes, id).parts() {
            Parts::Var(_) => None,
            Parts::App(number, _) => self.symbols.get_index(number),
        }
    }

    /// The number of the symbol of an application, counted from 0, and `None` for a variable: equal symbols, and no others, have
    /// equal numbers.
    pub fn symbol_number(&self, id: TermId) -> Option<usize>
        requires { id < length self.now.trees }
        ensures number { result ≡ option_map (number_of self.now.symbols) (symbol_of (tree_at self.now id)) }
        ensures symbol { option_map (symbol_at self.now.symbols) result ≡ symbol_of (tree_at self.now id) }
        ensures within { IfSome result (λ number. number < length self.now.symbols) }
    {
        match node_at(&self.nodes, id).parts() {
            Parts::Var(_) => None,
            Parts::App(number, _) => Some(number),
        }
    }

    /// The ids of the arguments in their order, and none for a variable.
    pub fn args(&self, id: TermId) -> &[TermId]
        requires { id < length self.now.trees }
        ensures trees { map (tree_at self.now) result.now ≡ arguments_of (tree_at self.now id) }
        ensures smaller { All (λ i. i < id) result.now }
    {
        match node_at(&self.nodes, id).parts() {
            Parts::Var(_) => &[],
            Parts::App(_, args) => args,
        }
    }

    /// The number of occurrences of symbols and variables, or `u64::MAX` where it is larger. It is kept beside the node.
    pub fn size(&self, id: TermId) -> u64
        requires { id < length self.now.trees }
        ensures { result ≡ min (tree_size (tree_at self.now id)) u64.MAX }
    {
        measures_at(&self.measures, id).size
    }

    /// The number of occurrences of symbols of kind Function, constants among them, or `u64::MAX` where it is larger. It is kept
    /// beside the node.
    pub fn weight(&self, id: TermId) -> u64
        requires { id < length self.now.trees }
        ensures { result ≡ min (tree_weight (tree_at self.now id)) u64.MAX }
    {
        measures_at(&self.measures, id).weight
    }

    /// Whether the tree has no variables. It is read off the greatest variable, which is kept beside the node.
    pub fn ground(&self, id: TermId) -> bool
        requires { id < length self.now.trees }
        ensures test { result ≡ is_ground (tree_at self.now id) }
        ensures variables { IsTrue result ↔ (tree_vars (tree_at self.now id) ≡ []) }
    {
        measures_at(&self.measures, id).greatest.is_none()
    }

    /// The greatest number of a variable of the tree, and `None` where it has no variable. It is kept beside the node.
    pub fn greatest_variable(&self, id: TermId) -> Option<usize>
        requires { id < length self.now.trees }
        ensures { IsGreatest (tree_vars (tree_at self.now id)) result }
    {
        measures_at(&self.measures, id).greatest
    }
}
