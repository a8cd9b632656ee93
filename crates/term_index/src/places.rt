// Where the exits stand at the nodes where they begin. Most lead over one edge, and for those a number by the end is enough.
ghost use Rattle.std.specs.Prelude.{◌≡◌, ◌<◌, ◌++◌, [], ℕ, List, length, OnOk, Some};
ghost use Rattle.term_index.specs.Paths.{is_step, place_of};
ghost use Rattle.term_index.specs.Lists.{IsNoted};

use crate::node::{Edge, Span};
use indexmap::{IndexMap, IndexSet};
use inst_logic::Memory;
use std::alloc::Global;
use std::marker::Model;

/// The places of the exits to which one edge leads, by the nodes where they end, and those of the others.
#[derive(Drop)]
pub struct Places {
    pub ends: Vec<u32>,
    pub spans: IndexMap<Span, u32>,
}

impl Model for Places {
    ghost use Rattle.term_index.specs.Paths.{PlaceLists};

    ghost Value = { PlaceLists };

    ghost view = { λ p. record { ends = p.ends.items; spans = p.spans.entries } };
}

// The places where there are no exits.
pub fn no_places(alloc: Global) -> Places
    ensures { result ≡ record { ends = []; spans = [] } }
{
    Places {
        ends: Vec::new(alloc),
        spans: IndexMap::new(alloc),
    }
}

// Whether one edge leads from the begin of the span to its end.
fn is_step(edges: &IndexSet<Edge>, span: Span) -> bool
    ensures { result ≡ is_step edges.now.keys span }
{
    match edges.get_index((span.end as usize).saturating_sub(1)) {
        None => false,
        Some(edge) => edge.from == span.begin,
    }
}

// The place that is known of the span.
pub fn place_of(edges: &IndexSet<Edge>, places: &Places, span: Span) -> Option<u32>
    ensures { result ≡ place_of edges.now.keys places.now span }
{
    if is_step(edges, span) {
        return places.ends.get(span.end as usize).copied();
    }
    places.spans.get(&span).copied()
}

// Makes the list so long that the end has a number in it.
fn reach(ends: &mut Vec<u32>, end: usize) -> Result<(), Memory>
    ensures within { OnOk result (end < length ends.new.items) }
    ensures kept { OnOk result ((more : List ℕ) × (ends.new.items ≡ ends.old.items ++ more)) }
{
    while ends.len() <= end {
        ends.push(0)?;
    }
    Ok(())
}

// Notes the place of the span.
pub fn note_place(
    edges: &IndexSet<Edge>,
    places: &mut Places,
    span: Span,
    place: u32,
) -> Result<(), Memory>
    ensures { OnOk result (IsNoted edges.now.keys places.old places.new span place) }
{
    if is_step(edges, span) {
        let end = span.end as usize;
        reach(&mut places.ends, end)?;
        places.ends[end] = place;
        return Ok(());
    }
    places.spans.insert(span, place)?;
    Ok(())
}

// Notes another place of a span of which one is known.
pub fn move_place(edges: &IndexSet<Edge>, places: &mut Places, span: Span, place: u32)
    requires known { (p : ℕ) × (place_of edges.now.keys places.old span ≡ Some p) }
    ensures { IsNoted edges.now.keys places.old places.new span place }
{
    if is_step(edges, span) {
        places.ends[span.end as usize] = place;
        return;
    }
    if let Some(there) = places.spans.get_mut(&span) {
        *there = place;
    }
}
