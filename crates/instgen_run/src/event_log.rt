// The solves of a run while it lasts, in few bytes each. With the origins of the entries they tell all events: a list of events
// takes more than twice as much, and each solve in it a piece of memory of its own, so one is made only at the end.
ghost use Rattle.std.specs.Prelude.{◌≡◌, ◌≤◌, ◌++◌, ◌∷◌, [], drop, length, slice_range, IfOk, OnOk};
ghost use Rattle.instgen_run.specs.declared.event.Event.TheVariants.{Solved};
ghost use Rattle.instgen_run.specs.Logs.{no_solves, with_solve};
ghost use Rattle.instgen_run.specs.Marks.{AreInOrder, IsLogOf, events_from, events_of, inferred, origins_of, told_by};

use crate::event::{Event, FlipList, Journal};
use crate::origin::{Origins, PackedOrigin, origin_of};
use crate::small::small;
use inst_logic::Memory;
use std::alloc::Global;
use std::marker::Model;
use term_bank::TermId;

/// How many flips all solves up to one have, and how many entries there were before it.
#[derive(Clone, Copy, Debug)]
pub struct Mark {
    pub flipped: u32,
    pub entries: u32,
}

const _: () = prove!(size_of::<Mark>() == 8);

// Adds the event of a solve with these flips.
fn add_solved(alloc: Global, events: &mut Vec<Event>, flips: &[TermId]) -> Result<(), Memory>
    ensures { OnOk result (events.new.items ≡ events.old.items ++ Solved flips.now ∷ []) }
{
    let own = Vec::from_slice(alloc, flips)?;
    events.push(Event::Solved(FlipList::from(own)))?;
    Ok(())
}

// Adds the event of an entry, where it was inferred.
fn add_entry(events: &mut Vec<Event>, origin: &PackedOrigin) -> Result<(), Memory>
    ensures { OnOk result (events.new.items ≡ events.old.items ++ told_by origin.now) }
{
    if origin.is_input() {
        Ok(())
    } else {
        events.push(Event::Inferred(origin.origin()?))?;
        Ok(())
    }
}

// Adds the events of the entries after the first `done` of so many.
fn add_entries(
    events: &mut Vec<Event>,
    clauses: &Origins,
    done: usize,
    count: usize,
) -> Result<(), Memory>
    requires { (done ≤ count) × (count ≤ length (origins_of clauses.now.entries)) }
    ensures { OnOk result (events.new.items ≡ events.old.items ++ inferred (slice_range (origins_of clauses.now.entries) done count)) }
{
    for i in done..count {
        add_entry(events, origin_of(clauses, i + 1))?;
    }
    Ok(())
}

// Adds the events of all entries after the first `done`.
fn add_rest(events: &mut Vec<Event>, clauses: &Origins, done: usize) -> Result<(), Memory>
    requires { done ≤ length (origins_of clauses.now.entries) }
    ensures { OnOk result (events.new.items ≡ events.old.items ++ inferred (drop done (origins_of clauses.now.entries))) }
{
    let count = clauses.len();
    add_entries(events, clauses, done, count)?;
    Ok(())
}

// The events of the marks, each after the entries that there were before it.
fn events_at(
    alloc: Global,
    flips: &[TermId],
    clauses: &Origins,
    marks: &[Mark],
) -> Result<Journal, Memory>
    requires { AreInOrder (length flips.now) (length (origins_of clauses.now.entries)) 0 0 marks.now }
    ensures { IfOk result (λ j. j ≡ events_from flips.now (origins_of clauses.now.entries) 0 0 marks.now) }
{
    let mut events = Vec::with_capacity(alloc, marks.len() + clauses.len())?;
    let mut flipped = 0;
    let mut done = 0;
    for mark in marks {
        add_entries(&mut events, clauses, done, mark.entries as usize)?;
        add_solved(alloc, &mut events, &flips[flipped..mark.flipped as usize])?;
        flipped = mark.flipped as usize;
        done = mark.entries as usize;
    }
    add_rest(&mut events, clauses, done)?;
    Ok(Journal::from(events))
}

/// The solves of a run so far, in order. Contracts see it as the list of all flips and the list of marks.
#[derive(Drop)]
pub struct EventLog {
    flips: Vec<TermId>,
    solves: Vec<Mark>,
}

impl Model for EventLog {
    ghost use Rattle.instgen_run.specs.Logs.{Log};

    ghost Value = { Log };

    ghost use Rattle.instgen_run.specs.EventLogs.{log_in};

    ghost view = { log_in };
}

impl EventLog {
    /// Nothing was solved yet.
    pub fn new(alloc: Global) -> EventLog
        ensures { result ≡ no_solves }
    {
        EventLog {
            flips: Vec::new(alloc),
            solves: Vec::new(alloc),
        }
    }

    /// Adds a solve with its flips after so many entries. It lacks memory where a run would have more than 2^32 - 1 flips.
    pub fn push_solved(&mut self, flips: &FlipList, entries: usize) -> Result<(), Memory>
        ensures { OnOk result (self.new ≡ with_solve self.old flips.now entries) }
    {
        let added = flips.as_slice();
        let mark = Mark {
            flipped: small(self.flips.len() + added.len())?,
            entries: small(entries)?,
        };
        self.flips.extend_from_slice(added)?;
        self.solves.push(mark)?;
        Ok(())
    }

    /// The events as a list, of a run with these entries.
    pub fn journal(&self, alloc: Global, clauses: &Origins) -> Result<Journal, Memory>
        requires { IsLogOf self.now clauses.now.entries }
        ensures { IfOk result (λ j. j ≡ events_of self.now clauses.now.entries) }
    {
        events_at(alloc, &self.flips, clauses, &self.solves)
    }
}
