// Clauses that watch nothing: those of fewer than two different literals, and those that had fewer than two literals that were
// not false whenever they were looked at. They are looked at whole.
ghost use Rattle.std.specs.Prelude.{◌≡◌, ◌≢◌, ◌<◌, ◌≤◌, ◌^◌, ℕ, List, Some, None, length, take, slice_set, IfOk, IfSome, IfNone, OnOk, OnErr, Contains, All};
ghost use Rattle.inst_logic.specs.declared.signed.Signed.{Signed};
ghost use Rattle.cdcl_trail.specs.Clauses.{clause_number};
ghost use Rattle.cdcl_trail.specs.Propagation.{IsConflict, Propagates};
ghost use Rattle.cdcl_trail.specs.Values.{AreValues, entries_of};
ghost use Rattle.cdcl_trail.specs.Watch.{slot_of, list_at, pair_at};
ghost use Rattle.cdcl_trail.specs.Watching.{IsTrueAt};
ghost use Rattle.cdcl_trail.specs.Running.{at_level, IsRunningOn, RunsOn};
ghost use Rattle.cdcl_trail.specs.Arena.{AreCopies};
ghost use Rattle.cdcl_trail.specs.Loose.{IsLookedAt, AreLoose, with_pair};

use crate::arena::{Arena, Attached};
use crate::clauses::Clauses;
use crate::entry::Entry;
use crate::packed_pair::PackedPair;
use crate::scan::{first_open, other_open};
use crate::watch::{Watch, WatchedPair};
use crate::watched_values::WatchedValues;
use inst_logic::Memory;
use prop_logic::Lit;

// What came of a clause that was looked at whole.
#[derive(Clone, Copy)]
pub(crate) enum Look {
    // It has a true literal, and no other one that is not false.
    Passed,
    // It watches two literals now, or is not there.
    Taken,
    // All its literals are false.
    False(usize),
}

// The clause of this number watches the pair, which is all that it has where it is binary.
fn watch_pair(
    watched: &mut WatchedValues,
    number: usize,
    pair: WatchedPair,
    binary: bool,
) -> Result<(), Memory>
    requires first { slot_of pair.first < length watched.old.lists.items }
    requires second { slot_of pair.second < length watched.old.lists.items }
    requires apart { slot_of pair.first ≢ slot_of pair.second }
    requires number { number < length watched.old.pairs.items }
    requires small_number { number < 2 ^ 31 }
    requires small { length watched.old.lists.items < 2 ^ 32 }
    ensures lists { OnOk result (watched.new.lists.items ≡ with_pair watched.old.lists.items number pair binary) }
    ensures size { length watched.new.lists.items ≡ length watched.old.lists.items }
    ensures pairs { OnOk result (watched.new.pairs.items ≡ slice_set watched.old.pairs.items number (Some pair)) }
    ensures values { watched.new.values ≡ watched.old.values }
{
    let first = Watch {
        number,
        blocker: pair.second,
        binary,
    };
    let second = Watch {
        number,
        blocker: pair.first,
        binary,
    };
    watched.add_watch(pair.first, first)?;
    watched.add_watch(pair.second, second)?;
    watched.pairs[number] = PackedPair::of(pair);
    Ok(())
}

// Makes true what the clause gives, or watches two of its literals.
pub(crate) fn look_at(
    watched: &mut WatchedValues,
    arena: &mut Arena,
    clauses: &Clauses,
    level: usize,
    number: usize,
) -> Result<Look, Memory>
    requires running { IsRunningOn clauses.now level watched.old }
    requires room { (c : List (Signed ℕ)) → clause_number clauses.now number ≡ Some c → number < length watched.old.pairs.items }
    requires copies { AreCopies clauses.now arena.old watched.old.pairs.items }
    ensures running { OnOk result (IsRunningOn clauses.now level watched.new) }
    ensures runs { OnOk result (RunsOn clauses.now level watched.old watched.new) }
    ensures copies { OnOk result (AreCopies clauses.now arena.new watched.new.pairs.items) }
    ensures looked { IfOk result (IsLookedAt clauses.now number (entries_of watched.new.values) watched.new.pairs.items) }
    ensures err { OnErr result (watched.new.values ≡ watched.old.values) }
    ensures size { length watched.new.lists.items ≡ length watched.old.lists.items }
{
    let Some(clause) = clauses.literals(number) else {
        return Ok(Look::Taken);
    };
    if watched.pair_of_clause(number).is_some() {
        return Ok(Look::Taken);
    }
    let Some(first) = first_open(&watched.values, clause) else {
        return Ok(Look::False(number));
    };
    match other_open(&watched.values, clause, first) {
        Some(second) => {
            arena.keep(number, clause)?;
            let binary = clause.len() == 2;
            let pair = WatchedPair { first, second };
            watch_pair(watched, number, pair, binary)?;
            Ok(Look::Taken)
        }
        None => {
            if !watched.values.is_true(first) {
                watched.values.put(Entry {
                    lit: first,
                    level,
                    reason: Some(number),
                });
            }
            Ok(Look::Passed)
        }
    }
}

// Looks at the loose clauses from `passed` on, up to one that is false, whose number is the answer.
pub(crate) fn settle_loose(
    watched: &mut WatchedValues,
    attached: &mut Attached,
    passed: &mut u32,
    clauses: &Clauses,
    level: usize,
) -> Result<Option<usize>, Memory>
    requires running { IsRunningOn clauses.now level watched.old }
    requires loose { AreLoose clauses.now (entries_of watched.old.values) watched.old.pairs.items attached.old.loose.items passed.old }
    requires short { length attached.old.loose.items < 2 ^ 32 }
    requires copies { AreCopies clauses.now attached.old.arena watched.old.pairs.items }
    ensures running { OnOk result (IsRunningOn clauses.now level watched.new) }
    ensures runs { OnOk result (RunsOn clauses.now level watched.old watched.new) }
    ensures conflict { IfOk result (λ found. IfSome found (IsConflict clauses.now (entries_of watched.new.values))) }
    ensures loose { OnOk result (AreLoose clauses.now (entries_of watched.new.values) watched.new.pairs.items attached.new.loose.items passed.new) }
    ensures copies { OnOk result (AreCopies clauses.now attached.new.arena watched.new.pairs.items) }
    ensures front { OnOk result (take passed.old attached.new.loose.items ≡ take passed.old attached.old.loose.items) }
    ensures short { length attached.new.loose.items ≤ length attached.old.loose.items }
    ensures on { OnOk result (passed.old ≤ passed.new) }
    ensures whole { IfOk result (λ found. IfNone found (passed.new ≡ length attached.new.loose.items)) }
    ensures values { AreValues watched.new.values }
    ensures added { Propagates clauses.now (at_level level watched.old.values) (at_level level watched.new.values) }
    ensures size { length watched.new.lists.items ≡ length watched.old.lists.items }
{
    while (*passed as usize) < attached.loose.len() {
        let number = attached.loose[*passed as usize] as usize;
        match look_at(watched, &mut attached.arena, clauses, level, number)? {
            Look::Passed => *passed += 1,
            Look::Taken => {
                attached.loose.swap_remove(*passed as usize);
            }
            Look::False(number) => return Ok(Some(number)),
        }
    }
    Ok(None)
}
