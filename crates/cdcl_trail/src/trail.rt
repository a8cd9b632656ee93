// The trail of a solver, with the clauses that are attached to it. Whoever searches sees true literals, levels and reasons,
// and no watch. The room of an atom's value is taken with the atom, so decisions, implied literals and ways back cannot fail;
// only new atoms, attached clauses and new watches can want memory.
ghost use Rattle.std.specs.Prelude.{◌≡◌, ◌<◌, ◌^◌, ◌↔◌, ◌≤◌, ◌≢◌, ◌+◌, ◌++◌, ◌∷◌, ℕ, List, Option, Some, None, All, [], false, true, length, take, vec_capacity, map, IfOk, OnOk, OnErr, IsErr, IfSome, IfNone, IsTrue};
ghost use Rattle.std.specs.List.{slice_index_or};
ghost use Rattle.inst_logic.specs.declared.signed.Signed.{Signed};
ghost use Rattle.cdcl_trail.specs.Attached.{WatchedTrail, AreAttached};
ghost use Rattle.cdcl_trail.specs.Clauses.{clause_number, ClausesBelow, AddsClause, RemovesClause};
ghost use Rattle.cdcl_trail.specs.Watch.{pair_at};
ghost use Rattle.cdcl_trail.specs.Propagation.{Propagates, IsConflict, IsStable};
ghost use Rattle.cdcl_trail.specs.Values.{AreValues, entries_of};
ghost use Rattle.cdcl_trail.specs.Trail.{IsTrail, IsUnset, IsPlaceOf, value_of, level_of, reason_of, literals_of, with_atom, with_decision, with_implied, back_at};

use crate::arena::{Arena, Attached};
use crate::clauses::Clauses;
use crate::detach::{forget_loose, unpass_all, unwatch};
use crate::entry::Entry;
use crate::packed_pair::PackedPair;
use crate::packed_watch::MOST_NUMBER;
use crate::propagation::saturate;
use crate::values::Values;
use crate::watch::Head;
use crate::watch_list::WatchList;
use crate::watched_values::WatchedValues;
use inst_logic::Memory;
use prop_logic::Lit;
use std::alloc::Global;
use std::marker::Model;

/// The literals that are true, in the order in which they became so, each with its level and its reason, and the clauses that
/// are attached. The room of each atom is taken when it is made, so that no value takes memory.
#[derive(Drop)]
pub struct Trail {
    alloc: Global,
    watched: WatchedValues,
    level: usize,
    spent: bool,
    attached: Attached,
    head: Head,
    heads: Vec<Head>,
}

impl Model for Trail {
    ghost use Rattle.std.specs.Prelude.{◌≡◌, ◌+◌, ◌<◌, ◌≤◌, ◌^◌, length, vec_capacity};
    ghost use Rattle.cdcl_trail.specs.Attached.{WatchedTrail};

    ghost Value = { WatchedTrail };

    ghost use Rattle.cdcl_trail.specs.Values.{AreValues, entries_of};
    ghost use Rattle.cdcl_trail.specs.Trail.{IsTrail};

    ghost view = { λ t. record {
      trail = record { atoms = length t.watched.values.entries.items; level = t.level; entries = entries_of t.watched.values; spent = t.spent };
      watching = record { lists = t.watched.lists.items; pairs = t.watched.pairs.items; copies = t.attached.arena; loose = t.attached.loose.items; head = t.head; heads = t.heads.items };
    } };

    ghost invariant = { λ t. AreValues t.watched.values × IsTrail (record { atoms = length t.watched.values.entries.items; level = t.level; entries = entries_of t.watched.values; spent = t.spent }) × (length t.watched.lists.items ≡ length t.watched.values.entries.items + length t.watched.values.entries.items) × (length t.heads.items ≡ t.level) × (length t.watched.values.entries.items ≤ vec_capacity t.heads) × (length t.attached.loose.items < 2 ^ 32) };
}

// Takes the room of one more atom.
fn grow_all(
    alloc: Global,
    values: &mut Values,
    lists: &mut Vec<WatchList>,
    heads: &mut Vec<Head>,
) -> Result<usize, Memory>
    requires values { AreValues values.old }
    requires heads { length heads.old.items ≤ length values.old.entries.items }
    requires capacity { length values.old.entries.items ≤ vec_capacity heads.old }
    ensures values { AreValues values.new }
    ensures entries { entries_of values.new ≡ entries_of values.old }
    ensures number { IfOk result (λ n. n ≡ length values.old.entries.items) }
    ensures atoms { OnOk result (length values.new.entries.items ≡ length values.old.entries.items + 1) }
    ensures lists { OnOk result (lists.new.items ≡ (lists.old.items ++ [] ∷ []) ++ [] ∷ []) }
    ensures heads { heads.new.items ≡ heads.old.items }
    ensures capacity { length values.new.entries.items ≤ vec_capacity heads.new }
    ensures err_lists { OnErr result (lists.new.items ≡ lists.old.items) }
    ensures err_atoms { OnErr result (length values.new.entries.items ≡ length values.old.entries.items) }
{
    let atom = values.atoms();
    lists.reserve(2)?;
    heads.reserve(atom + 1 - heads.len())?;
    values.grow()?;
    lists.push_reserved(WatchList::new(alloc));
    lists.push_reserved(WatchList::new(alloc));
    Ok(atom)
}

// Takes back the heads of the levels above this one, and answers how far propagation came at it.
fn restore(heads: &mut Vec<Head>, present: Head, level: usize) -> Head
    ensures head { result ≡ slice_index_or heads.old.items level present }
    ensures heads { heads.new.items ≡ take level heads.old.items }
    ensures capacity { vec_capacity heads.new ≡ vec_capacity heads.old }
{
    let head = match heads.get(level) {
        Some(head) => *head,
        None => present,
    };
    heads.truncate(level);
    head
}

// Makes the list longer than n.
fn lengthen(pairs: &mut Vec<PackedPair>, n: usize) -> Result<(), Memory>
    ensures longer { OnOk result (n < length pairs.new.items) }
    ensures kept { (k : ℕ) → pair_at pairs.new.items k ≡ pair_at pairs.old.items k }
    ensures size { length pairs.old.items ≤ length pairs.new.items }
{
    while pairs.len() <= n {
        pairs.push(PackedPair::none())?;
    }
    Ok(())
}

// Ends the loose clauses with this one, where a watch holds its number, and a u32 how many they are.
fn add_loose(pairs: &mut Vec<PackedPair>, loose: &mut Vec<u32>, n: usize) -> Result<(), Memory>
    requires short { length loose.old.items < 2 ^ 32 }
    ensures short { length loose.new.items < 2 ^ 32 }
    ensures longer { OnOk result (n < length pairs.new.items) }
    ensures kept { (k : ℕ) → pair_at pairs.new.items k ≡ pair_at pairs.old.items k }
    ensures size { length pairs.old.items ≤ length pairs.new.items }
    ensures loose { OnOk result (loose.new.items ≡ loose.old.items ++ n ∷ []) }
{
    if n > MOST_NUMBER || loose.len() == u32::MAX as usize {
        return Err(Memory);
    }
    lengthen(pairs, n)?;
    loose.push(n as u32)?;
    Ok(())
}

impl Trail {
    /// A trail without atoms, to which no clause is attached.
    pub fn new(alloc: Global) -> Trail
        ensures trail { result.trail ≡ record { atoms = 0; level = 0; entries = []; spent = false } }
        ensures attached { (clauses : List (Option (List (Signed ℕ)))) → ((n : ℕ) → clause_number clauses n ≡ None) → AreAttached result clauses }
    {
        Trail {
            alloc,
            watched: WatchedValues {
                values: Values::new(alloc),
                lists: Vec::new(alloc),
                pairs: Vec::new(alloc),
            },
            level: 0,
            spent: false,
            attached: Attached {
                arena: Arena::new(alloc),
                loose: Vec::new(alloc),
            },
            head: Head {
                place: 0,
                passed: 0,
            },
            heads: Vec::new(alloc),
        }
    }

    /// Makes an atom, takes its room, and answers its number, counted from 0. There is room for 2^31 - 1 atoms at most. After
    /// want of memory the atoms and values are those from before, nothing is promised of the attached clauses, and every later
    /// call that can want memory wants it.
    pub fn grow(&mut self) -> Result<usize, Memory>
        ensures number { IfOk result (λ n. n ≡ self.old.trail.atoms) }
        ensures ok { OnOk result ((self.old.trail.spent ≡ false) × (self.new.trail ≡ with_atom self.old.trail)) }
        ensures attached { OnOk result ((clauses : List (Option (List (Signed ℕ)))) → AreAttached self.old clauses → AreAttached self.new clauses) }
        ensures err { OnErr result (self.new.trail ≡ record self.old.trail { spent = true }) }
    {
        if self.spent {
            return Err(Memory);
        }
        match grow_all(
            self.alloc,
            &mut self.watched.values,
            &mut self.watched.lists,
            &mut self.heads,
        ) {
            Ok(atom) => Ok(atom),
            Err(error) => {
                self.spent = true;
                Err(error)
            }
        }
    }

    /// The value of the literal, or `None` where its atom has none.
    pub fn value(&self, l: Lit) -> Option<bool>
        requires { l.atom < self.now.trail.atoms }
        ensures { result ≡ value_of self.now.trail.entries l }
    {
        self.watched.values.value(l)
    }

    /// The present level. Level 0 holds what follows from the clauses alone.
    pub fn level(&self) -> usize
        ensures { result ≡ self.now.trail.level }
    {
        self.level
    }

    /// The number of the clause that gave the atom its value, or `None` where it has none or was decided.
    pub fn reason(&self, atom: usize) -> Option<usize>
        requires { atom < self.now.trail.atoms }
        ensures { result ≡ reason_of self.now.trail.entries atom }
    {
        match self.watched.values.entry(atom) {
            Some(entry) => entry.reason,
            None => None,
        }
    }

    /// The level at which the atom got its value, or `None` where it has none.
    pub fn level_of(&self, atom: usize) -> Option<usize>
        requires { atom < self.now.trail.atoms }
        ensures { result ≡ level_of self.now.trail.entries atom }
    {
        match self.watched.values.entry(atom) {
            Some(entry) => Some(entry.level),
            None => None,
        }
    }

    /// The place of the atom's literal among the assigned ones, or `None` where it has no value. It is read, and not looked for.
    pub fn place_of(&self, atom: usize) -> Option<usize>
        requires { atom < self.now.trail.atoms }
        ensures some { IfSome result (IsPlaceOf self.now.trail.entries atom) }
        ensures none { IfNone result (IsUnset self.now.trail.entries atom) }
    {
        self.watched.values.place(atom)
    }

    /// The true literals in the order in which they became so.
    pub fn assigned(&self) -> &[Lit]
        ensures literals { result.now ≡ literals_of self.now.trail.entries }
        ensures trail { IsTrail self.now.trail }
    {
        self.watched.values.literals.as_slice()
    }

    /// Whether each atom has a value, without a look at the atoms.
    pub fn is_whole(&self) -> bool
        ensures { IsTrue result ↔ ((a : ℕ) → a < self.now.trail.atoms → ¬ IsUnset self.now.trail.entries a) }
    {
        self.watched.values.literals.len() == self.watched.values.entries.len()
    }

    /// Opens a level with the literal. It takes no memory.
    pub fn decide(&mut self, l: Lit)
        requires atom { l.atom < self.old.trail.atoms }
        requires unset { IsUnset self.old.trail.entries l.atom }
        ensures trail { self.new.trail ≡ with_decision self.old.trail l }
        ensures attached { (clauses : List (Option (List (Signed ℕ)))) → AreAttached self.old clauses → AreAttached self.new clauses }
    {
        self.heads.push_reserved(self.head);
        self.level += 1;
        self.watched.values.put(Entry {
            lit: l,
            level: self.level,
            reason: None,
        });
    }

    /// Makes the literal true at the present level, by the clause of this number. It takes no memory, and the clause is not
    /// looked at: that it gives the literal is the caller's word.
    pub fn imply(&mut self, l: Lit, reason: usize)
        requires atom { l.atom < self.old.trail.atoms }
        requires unset { IsUnset self.old.trail.entries l.atom }
        ensures trail { self.new.trail ≡ with_implied self.old.trail l reason }
        ensures attached { (clauses : List (Option (List (Signed ℕ)))) → AreAttached self.old clauses → AreAttached self.new clauses }
    {
        let entry = Entry {
            lit: l,
            level: self.level,
            reason: Some(reason),
        };
        self.watched.values.put(entry);
    }

    /// Takes back the levels above this one, in time that follows the values that are taken back. Watches stay as they are.
    pub fn back_to(&mut self, level: usize)
        requires { level ≤ self.old.trail.level }
        ensures trail { self.new.trail ≡ back_at self.old.trail level }
        ensures attached { (clauses : List (Option (List (Signed ℕ)))) → AreAttached self.old clauses → AreAttached self.new clauses }
    {
        let head = restore(&mut self.heads, self.head, level);
        self.head = head;
        self.watched.values.back_to(level);
        self.level = level;
    }

    /// Attaches the clause of this number: `propagate` looks at it from now on. It watches nothing before that first look, so
    /// it may have any literals, true and false ones among them. There is room for numbers below 2^31, for 2^32 - 1 clauses
    /// that watch nothing, and for 2^32 - 1 literals of those that watch, which `propagate` copies when they begin to. After
    /// want of memory the values are those from before, nothing is promised of the attached clauses, and every later call that
    /// can want memory wants it.
    pub fn attach(&mut self, clauses: &Clauses, n: usize) -> Result<(), Memory>
        ensures trail { OnOk result ((self.old.trail.spent ≡ false) × (self.new.trail ≡ self.old.trail)) }
        ensures attached { OnOk result ((before after : List (Option (List (Signed ℕ)))) (c : List (Signed ℕ)) → AddsClause before after c n → AreAttached self.old before → AreAttached self.new after) }
        ensures err { OnErr result (self.new.trail ≡ record self.old.trail { spent = true }) }
    {
        if self.spent {
            return Err(Memory);
        }
        match add_loose(&mut self.watched.pairs, &mut self.attached.loose, n) {
            Ok(()) => Ok(()),
            Err(error) => {
                self.spent = true;
                Err(error)
            }
        }
    }

    /// Detaches the clause of this number, which is the reason of no atom: `propagate` looks at it no more. Time: a scan of
    /// two watch lists, of the clauses that watch nothing, and of the levels; those clauses are all looked at again.
    pub fn detach(&mut self, clauses: &Clauses, n: usize)
        requires reason { All (λ e. e.reason ≢ Some n) self.old.trail.entries }
        ensures trail { self.new.trail ≡ self.old.trail }
        ensures attached { (before after : List (Option (List (Signed ℕ)))) → RemovesClause before after n → AreAttached self.old before → AreAttached self.new after }
    {
        let atoms = self.watched.values.atoms();
        unwatch(&mut self.watched.lists, &mut self.watched.pairs, atoms, n);
        self.attached.arena.remove(n);
        forget_loose(&mut self.attached.loose, n);
        unpass_all(&mut self.heads);
        self.head.passed = 0;
    }

    /// Makes true what the attached clauses give, until a clause is false, whose number is the answer, or none gives
    /// anything. When the answer is `Some`, other clauses may still give literals, and those that were given stay on the
    /// trail. After want of memory the values are those from before the call, nothing is promised of the attached clauses,
    /// and every later call that can want memory wants it. Time: for each literal that became false one step for each clause
    /// that watches it, and a walk over the literals of such a clause where neither its blocker nor its other watched literal
    /// is true.
    pub fn propagate(&mut self, clauses: &Clauses) -> Result<Option<usize>, Memory>
        requires below { ClausesBelow self.old.trail.atoms clauses.now }
        requires attached { AreAttached self.old clauses.now }
        ensures added { OnOk result (Propagates clauses.now self.old.trail self.new.trail) }
        ensures conflict { IfOk result (λ found. IfSome found (IsConflict clauses.now self.new.trail.entries)) }
        ensures stable { IfOk result (λ found. IfNone found (IsStable clauses.now self.new.trail.entries)) }
        ensures ok { OnOk result ((self.old.trail.spent ≡ false) × (self.new.trail.spent ≡ false)) }
        ensures attached { OnOk result (AreAttached self.new clauses.now) }
        ensures err { OnErr result (self.new.trail ≡ record self.old.trail { spent = true }) }
    {
        if self.spent {
            return Err(Memory);
        }
        let before = self.watched.values.literals.len();
        let found = saturate(
            &mut self.watched,
            &mut self.attached,
            &mut self.head,
            clauses,
            self.level,
        );
        match found {
            Ok(found) => Ok(found),
            Err(error) => {
                self.watched.values.undo_to(before);
                self.spent = true;
                Err(error)
            }
        }
    }
}
