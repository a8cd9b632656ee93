// Terms by variables, as a sparse set (Briggs and Torczon, An efficient representation for sparse sets, 1993). The numbers of
// variables are small, so a variable is looked up by its number and not by a hash.
ghost use Rattle.std.specs.Prelude.{◌≡◌, ℕ, ◌≤◌, ◌<◌, ◌++◌, ◌∷◌, [], length, take, nat_eq, None, Some, if◌then◌else◌, OnOk, OnErr, IfSome, IfNone, slice_get, slice_index};
ghost use Rattle.unify_core.specs.Sides.{variable_number};
ghost use Rattle.unify_core.specs.Table.{bound_of, most_placed, ArePlaces, IsPlacedAt};

use crate::side::{Bound, Side, Variable};
use inst_logic::Memory;
use std::alloc::Global;
use std::marker::Model;

// Variables with this number or a larger one have no place, so that one of them does not make the list of places long. They are
// sought along the bindings.
const MOST: usize = 2_097_152;

/// What variables are bound to, in the order in which they were bound.
#[derive(Drop)]
pub struct Table {
    bound: Vec<(Variable, Bound)>,
    // The place of each bound variable in `bound`, by the variable's number on both sides. What stands here of other variables
    // may be anything, since a look-up compares the variable at the place: so nothing is done here when bindings are dropped.
    places: Vec<usize>,
}

impl Model for Table {
    ghost use Rattle.unify_core.specs.Table.{Bound_table, ArePlaces};

    ghost Value = { Bound_table };

    ghost view = { λ t. record { entries = t.bound.items } };

    ghost invariant = { λ t. ArePlaces t.bound.items t.places.items };
}

// Where the variable's place is noted, unless its number is too large.
#[inline]
fn code(x: Variable) -> Option<usize>
    ensures some { IfSome result (λ n. (n ≡ variable_number x) × (n < most_placed)) }
    ensures none { IfNone result (most_placed ≤ variable_number x) }
{
    if x.var >= MOST {
        return None;
    }
    match x.side {
        Side::Left => Some(2 * x.var),
        Side::Right => Some(2 * x.var + 1),
    }
}

#[inline]
fn entry_at(bound: &[(Variable, Bound)], i: usize) -> (Variable, Bound)
    requires { i < length bound.now }
    ensures { slice_get bound.now i ≡ Some result }
{
    bound[i]
}

// What the variable is bound to, by the place that is noted at its number.
#[inline]
fn at_place(bound: &[(Variable, Bound)], places: &[usize], n: usize, x: Variable) -> Option<Bound>
    requires places { ArePlaces bound.now places.now }
    requires number { n ≡ variable_number x }
    requires small { n < most_placed }
    ensures { result ≡ bound_of x bound.now }
{
    if n >= places.len() {
        return None;
    }
    let place = places[n];
    if place >= bound.len() {
        return None;
    }
    let entry = entry_at(bound, place);
    if x == entry.0 { Some(entry.1) } else { None }
}

// What the variable is bound to, sought along the bindings.
fn along(bound: &[(Variable, Bound)], x: Variable) -> Option<Bound>
    ensures { result ≡ bound_of x bound.now }
{
    for i in 0..bound.len() {
        let entry = entry_at(bound, i);
        if x == entry.0 {
            return Some(entry.1);
        }
    }
    None
}

// Makes the list long enough for the number.
fn reach(places: &mut Vec<usize>, n: usize) -> Result<(), Memory>
    requires { n < most_placed }
    ensures within { OnOk result (n < length places.new.items) }
    ensures longer { length places.old.items ≤ length places.new.items }
    ensures kept { (k : ℕ) → slice_index places.new.items k ≡ slice_index places.old.items k }
{
    let len = n + 1;
    if places.len() < len {
        places.resize(len, 0)?;
    }
    Ok(())
}

// Notes the place at the number.
fn put_at(places: &mut Vec<usize>, n: usize, place: usize) -> Result<(), Memory>
    requires { n < most_placed }
    ensures within { OnOk result (n < length places.new.items) }
    ensures longer { length places.old.items ≤ length places.new.items }
    ensures given { OnOk result ((k : ℕ) → slice_index places.new.items k ≡ (if nat_eq n k then place else slice_index places.old.items k)) }
    ensures held { OnErr result ((k : ℕ) → slice_index places.new.items k ≡ slice_index places.old.items k) }
{
    reach(places, n)?;
    places[n] = place;
    Ok(())
}

// Notes the place of the variable.
fn put_place(places: &mut Vec<usize>, x: Variable, place: usize) -> Result<(), Memory>
    ensures placed { OnOk result (IsPlacedAt places.new.items place x) }
    ensures longer { length places.old.items ≤ length places.new.items }
    ensures kept { (k : ℕ) → ¬ (k ≡ variable_number x) → slice_index places.new.items k ≡ slice_index places.old.items k }
{
    match code(x) {
        None => Ok(()),
        Some(n) => {
            put_at(places, n, place)?;
            Ok(())
        }
    }
}

impl Table {
    pub fn new(alloc: Global) -> Table
        ensures { result ≡ record { entries = [] } }
    {
        Table {
            bound: Vec::new(alloc),
            places: Vec::new(alloc),
        }
    }

    #[inline]
    pub fn len(&self) -> usize
        ensures { result ≡ length self.now.entries }
    {
        self.bound.len()
    }

    // The variable that was bound at this place in the order, with what it is bound to.
    pub fn at(&self, i: usize) -> (Variable, Bound)
        requires { i < length self.now.entries }
        ensures { slice_get self.now.entries i ≡ Some result }
    {
        self.bound[i]
    }

    // What the variable is bound to.
    #[inline]
    pub fn get(&self, x: Variable) -> Option<Bound>
        ensures { result ≡ bound_of x self.now.entries }
    {
        let bound = self.bound.as_slice();
        let places = self.places.as_slice();
        match code(x) {
            Some(n) => at_place(bound, places, n, x),
            None => along(bound, x),
        }
    }

    // Binds a variable that is not bound.
    pub fn insert(&mut self, x: Variable, t: Bound) -> Result<(), Memory>
        requires { bound_of x self.old.entries ≡ None }
        ensures ok { OnOk result (self.new.entries ≡ self.old.entries ++ (x, t) ∷ []) }
        ensures err { OnErr result (self.new.entries ≡ self.old.entries) }
    {
        let place = self.bound.len();
        put_place(&mut self.places, x, place)?;
        self.bound.push((x, t))?;
        Ok(())
    }

    // Keeps the first `len` bindings.
    pub fn truncate(&mut self, len: usize)
        ensures { self.new.entries ≡ take len self.old.entries }
    {
        self.bound.truncate(len);
    }
}
