// Facts of level 0 as steps of their own, as CaDiCaL logs them (Pollitt, Fleury and Biere, Faster LRAT checking than solving with
// CaDiCaL, 2023). A fact that a longer clause gave is cited by that clause and by all facts that this
// one rests on; so once an analysis has met it, its literal alone becomes a step, and what is learned later cites that alone.
ghost use Rattle.std.specs.Prelude.{◌≡◌, ◌∷◌, [], ◌<◌, ℕ, List, Some, map, length, slice_get, IfOk, IfSome, OnOk};
ghost use Rattle.prop_logic.specs.Literal.{cited};
ghost use Rattle.prop_logic.specs.Analysis.{ClosesAll};
ghost use Rattle.cdcl_trail.specs.declared.entry.Entry.{Entry};
ghost use Rattle.cdcl_trail.specs.Trail.{IsTrail};
ghost use Rattle.cdcl_core.specs.Search.{IsLogOf, IsLogMore};

use crate::analysis::literal_at;
use crate::log::Log;
use crate::packed_hint::PackedHint;
use cdcl_trail::Trail;
use inst_logic::Memory;
use prop_logic::{Hint, Lit, complement};
use std::alloc::Global;

// What cites the literal alone, if a clause gave it and it is known.
fn unit_hint(log: &Log, trail: &Trail, lit: Lit) -> Option<PackedHint>
    requires { lit.atom < trail.now.trail.atoms }
    ensures { IfSome result (λ hint. cited log.now.added log.now.steps hint ≡ Some (lit ∷ [])) }
{
    let number = trail.reason(lit.atom)?;
    let hint = log.given_by(lit, number);
    log.is_unit(hint, lit).then_some(hint)
}

// The hints that show the literal at the place alone by the clause of this number, which gave it, if the clause's other
// literals are known to be false by facts alone.
fn unit_hints(
    alloc: Global,
    log: &Log,
    trail: &Trail,
    place: usize,
    number: usize,
) -> Result<Option<Vec<PackedHint>>, Memory>
    requires trail { IsTrail trail.now.trail }
    requires log { IsLogOf log.now trail.now.trail }
    requires place { place < length trail.now.trail.entries }
    requires given { (e : Entry) → slice_get trail.now.trail.entries place ≡ Some e → e.reason ≡ Some number }
    ensures { IfOk result (λ found. IfSome found (λ hints. (e : Entry) → slice_get trail.now.trail.entries place ≡ Some e → ClosesAll (e.lit ∷ []) (map (cited log.now.added log.now.steps) hints.items))) }
{
    let lit = literal_at(trail, place);
    let last = log.hint_of(number);
    let clause = log.cited_clause(last);
    let mut hints = Vec::new(alloc);
    for packed in clause {
        let other = packed.lit();
        if other == lit {
            continue;
        }
        match unit_hint(log, trail, complement(other)) {
            None => return Ok(None),
            Some(hint) => hints.push(hint)?,
        }
    }
    hints.push(last)?;
    Ok(Some(hints))
}

// Ends the steps with the literal alone.
fn push_unit(log: &mut Log, lit: Lit, hints: &[PackedHint]) -> Result<(), Memory>
    requires { ClosesAll (lit ∷ []) (map (cited log.old.added log.old.steps) hints.now) }
    ensures more { OnOk result ((atoms : ℕ) → lit.atom < atoms → IsLogMore atoms log.old log.new) }
    ensures added { log.new.added ≡ log.old.added }
{
    log.steps.push(&[lit], hints)?;
    let hint = Hint::Step(log.steps.len());
    log.units.put(lit.atom, hint)
}

// Makes a step of the fact at the place, if those that it rests on are known.
fn unite(alloc: Global, log: &mut Log, trail: &Trail, place: usize) -> Result<(), Memory>
    requires { IsLogOf log.old trail.now.trail }
    ensures more { OnOk result (IsLogMore trail.now.trail.atoms log.old log.new) }
    ensures added { log.new.added ≡ log.old.added }
{
    if trail.assigned().len() <= place {
        return Ok(());
    }
    let lit = literal_at(trail, place);
    match trail.reason(lit.atom) {
        None => Ok(()),
        Some(number) => match unit_hints(alloc, log, trail, place, number)? {
            None => Ok(()),
            Some(hints) => push_unit(log, lit, hints.as_slice()),
        },
    }
}

// Makes the facts at all these places steps, of which the last is the first on the trail.
pub(crate) fn unite_all(
    alloc: Global,
    log: &mut Log,
    trail: &Trail,
    facts: &[usize],
) -> Result<(), Memory>
    requires { IsLogOf log.old trail.now.trail }
    ensures more { OnOk result (IsLogMore trail.now.trail.atoms log.old log.new) }
    ensures added { log.new.added ≡ log.old.added }
{
    let mut left = facts.len();
    while 0 < left {
        left -= 1;
        unite(alloc, log, trail, facts[left])?;
    }
    Ok(())
}
