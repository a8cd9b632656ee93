// What comes of one watch of a literal that became false. The blocker is looked at first, then the other literal that the
// clause watches, and the clause itself only where neither is true, since reading it is what costs.
ghost use Rattle.std.specs.Prelude.{◌≡◌, ◌≢◌, false, ◌⊎◌, ◌<◌, ◌^◌, ℕ, Option, List, Some, length, slice_get, slice_set, IfOk, OnOk, OnErr, Contains};
ghost use Rattle.std.specs.List.{swap_remove};
ghost use Rattle.inst_logic.specs.declared.signed.Signed.{Signed};
ghost use Rattle.cdcl_trail.specs.Propagation.{IsFalseIn};
ghost use Rattle.cdcl_trail.specs.Trail.{literals_of};
ghost use Rattle.cdcl_trail.specs.Values.{entries_of};
ghost use Rattle.cdcl_trail.specs.Watch.{slot_of, list_at, pair_at, pair_of, HasBoth, AreWatched, IsMove};
ghost use Rattle.cdcl_trail.specs.Running.{IsRunningOn, VisitsOn};
ghost use Rattle.cdcl_trail.specs.declared.watch.Watch.{Watch};
ghost use Rattle.cdcl_trail.specs.declared.watch.WatchedPair.{WatchedPair};

use crate::arena::Arena;
use crate::entry::Entry;
use crate::packed_pair::PackedPair;
use crate::scan::next_open;
use crate::watch::{Spot, Watch, WatchedPair};
use crate::watched_values::WatchedValues;
use inst_logic::Memory;
use prop_logic::Lit;

// What came of a watch.
#[derive(Clone, Copy)]
pub(crate) enum Visit {
    // The clause has a true literal, and still watches this one.
    Kept,
    // The clause watches another literal in place of this one.
    Moved,
    // All literals of this clause are false.
    False(usize),
}

// The clause that watched the literal and the watch's blocker watches the next literal, found at place `from`, instead.
fn move_watch(
    watched: &mut WatchedValues,
    spot: Spot,
    watch: Watch,
    next: Lit,
    from: usize,
) -> Result<(), Memory>
    requires slot { slot_of spot.l < length watched.old.lists.items }
    requires next { slot_of next < length watched.old.lists.items }
    requires apart { slot_of next ≢ slot_of spot.l }
    requires place { spot.place < length (list_at watched.old.lists.items (slot_of spot.l)) }
    requires number { watch.number < length watched.old.pairs.items }
    requires small_number { watch.number < 2 ^ 31 }
    requires other { slot_of watch.blocker < length watched.old.lists.items }
    requires long { watch.binary ≡ false }
    requires small { length watched.old.lists.items < 2 ^ 32 }
    ensures watched { OnOk result ((clauses : List (Option (List (Signed ℕ)))) (w : Watch) (p : WatchedPair) (c : List (Signed ℕ)) → w.number ≡ watch.number → IsMove clauses watched.old.lists.items watched.old.pairs.items spot.l watch.blocker next spot.place w p c → AreWatched clauses watched.new.lists.items watched.new.pairs.items) }
    ensures lists { OnOk result ((w : Watch) → slice_get (list_at watched.old.lists.items (slot_of spot.l)) spot.place ≡ Some w → list_at watched.new.lists.items (slot_of spot.l) ≡ swap_remove (list_at watched.old.lists.items (slot_of spot.l)) spot.place w) }
    ensures size { length watched.new.lists.items ≡ length watched.old.lists.items }
    ensures pairs { OnOk result (watched.new.pairs.items ≡ slice_set watched.old.pairs.items watch.number (Some (pair_of watch.blocker next))) }
    ensures values { watched.new.values ≡ watched.old.values }
{
    watched.add_watch(next, watch)?;
    watched.drop_watch(spot);
    let pair = WatchedPair {
        first: watch.blocker,
        second: next,
    };
    watched.pairs[watch.number] = PackedPair::with_place(pair, from);
    Ok(())
}

// What the clause of this number watches, if it watches.
pub(crate) fn pair_of_clause(pairs: &[PackedPair], number: usize) -> Option<WatchedPair>
    ensures { result ≡ pair_at pairs.now number }
{
    match pairs.get(number) {
        Some(pair) => pair.get(),
        None => None,
    }
}

// Where the next look at the clause of this number begins.
fn look_from(pairs: &[PackedPair], number: usize) -> usize {
    match pairs.get(number) {
        Some(pair) => pair.from(),
        None => 0,
    }
}

// The other literal of the pair.
fn other_of(pair: WatchedPair, l: Lit) -> Lit
    ensures { (pair.first ≡ l) ⊎ (pair.second ≡ l) → HasBoth pair l result }
{
    if pair.first == l {
        pair.second
    } else {
        pair.first
    }
}

// Looks for another literal of the clause to watch, where its other watched literal, the blocker, is not true.
fn settle(
    watched: &mut WatchedValues,
    clauses: &Arena,
    level: usize,
    spot: Spot,
    watch: Watch,
) -> Result<Visit, Memory>
    requires running { IsRunningOn clauses.now level watched.old }
    requires is_false { IsFalseIn (entries_of watched.old.values) spot.l }
    requires watch { (w : Watch) × (slice_get (list_at watched.old.lists.items (slot_of spot.l)) spot.place ≡ Some w) × (w.number ≡ watch.number) }
    requires pair { (p : WatchedPair) × (pair_at watched.old.pairs.items watch.number ≡ Some p) × HasBoth p spot.l watch.blocker }
    requires number { watch.number < 2 ^ 31 }
    requires long { watch.binary ≡ false }
    requires not_true { ¬ Contains (literals_of (entries_of watched.old.values)) watch.blocker }
    ensures visits { IfOk result (VisitsOn clauses.now level spot watched.old watched.new) }
    ensures err { OnErr result (watched.new.values ≡ watched.old.values) }
    ensures size { length watched.new.lists.items ≡ length watched.old.lists.items }
{
    let Some(clause) = clauses.get(watch.number) else {
        return Ok(Visit::False(watch.number));
    };
    let from = look_from(&watched.pairs, watch.number);
    match next_open(&watched.values, clause, watch.blocker, from) {
        Some(from) => {
            let next = clause[from].lit();
            move_watch(watched, spot, watch, next, from)?;
            Ok(Visit::Moved)
        }
        None => {
            if watched.values.is_false(watch.blocker) {
                return Ok(Visit::False(watch.number));
            }
            watched.values.put(Entry {
                lit: watch.blocker,
                level,
                reason: Some(watch.number),
            });
            Ok(Visit::Kept)
        }
    }
}

// Visits the clause of a watch whose blocker is not true.
fn visit_clause(
    watched: &mut WatchedValues,
    clauses: &Arena,
    level: usize,
    spot: Spot,
    number: usize,
) -> Result<Visit, Memory>
    requires running { IsRunningOn clauses.now level watched.old }
    requires is_false { IsFalseIn (entries_of watched.old.values) spot.l }
    requires watch { (w : Watch) × (slice_get (list_at watched.old.lists.items (slot_of spot.l)) spot.place ≡ Some w) × (w.number ≡ number) }
    requires number { number < 2 ^ 31 }
    ensures visits { IfOk result (VisitsOn clauses.now level spot watched.old watched.new) }
    ensures err { OnErr result (watched.new.values ≡ watched.old.values) }
    ensures size { length watched.new.lists.items ≡ length watched.old.lists.items }
{
    let Some(pair) = watched.pair_of_clause(number) else {
        return Ok(Visit::False(number));
    };
    let other = other_of(pair, spot.l);
    let watch = Watch {
        number,
        blocker: other,
        binary: false,
    };
    if watched.values.is_true(other) {
        watched.put_watch(spot, watch);
        return Ok(Visit::Kept);
    }
    settle(watched, clauses, level, spot, watch)
}

// Visits the clause of the watch at this place. One of two literals is not read: its other literal is the blocker. The blocker is
// read before the rest of the watch, since most visits need no more.
pub(crate) fn visit_at(
    watched: &mut WatchedValues,
    clauses: &Arena,
    level: usize,
    spot: Spot,
) -> Result<Visit, Memory>
    requires running { IsRunningOn clauses.now level watched.old }
    requires is_false { IsFalseIn (entries_of watched.old.values) spot.l }
    requires place { spot.place < length (list_at watched.old.lists.items (slot_of spot.l)) }
    ensures visits { IfOk result (VisitsOn clauses.now level spot watched.old watched.new) }
    ensures err { OnErr result (watched.new.values ≡ watched.old.values) }
    ensures size { length watched.new.lists.items ≡ length watched.old.lists.items }
{
    if watched.values.is_true(watched.watch_at(spot).blocker()) {
        return Ok(Visit::Kept);
    }
    let watch = watched.watch_at(spot).get();
    if !watch.binary {
        return visit_clause(watched, clauses, level, spot, watch.number);
    }
    if watched.values.is_false(watch.blocker) {
        return Ok(Visit::False(watch.number));
    }
    watched.values.put(Entry {
        lit: watch.blocker,
        level,
        reason: Some(watch.number),
    });
    Ok(Visit::Kept)
}
