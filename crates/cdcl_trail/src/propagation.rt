// Unit propagation by watched literals (Moskewicz and others, Chaff, 2001): first the clauses that watch nothing, then the watch
// lists. A clause without watches that was passed has a true literal, so it needs no second look before the level of that literal
// is taken back.
ghost use Rattle.std.specs.Prelude.{◌≡◌, ◌<◌, ◌≤◌, ◌^◌, length, take, IfOk, IfSome, IfNone, OnOk};
ghost use Rattle.cdcl_trail.specs.Propagation.{IsConflict, IsStable, Propagates};
ghost use Rattle.cdcl_trail.specs.Values.{AreValues, entries_of};
ghost use Rattle.cdcl_trail.specs.Watching.{IsSettled};
ghost use Rattle.cdcl_trail.specs.Running.{at_level, IsRunningOn, RunsOn};
ghost use Rattle.cdcl_trail.specs.Arena.{AreCopies};
ghost use Rattle.cdcl_trail.specs.Loose.{AreLoose};

use crate::arena::Attached;
use crate::clauses::Clauses;
use crate::loose::settle_loose;
use crate::visit_trail::visit_trail;
use crate::watch::Head;
use crate::watched_values::WatchedValues;
use inst_logic::Memory;

// Makes true what the clauses give from the head on, until a clause is false, whose number is the answer, or none gives anything.
pub(crate) fn saturate(
    watched: &mut WatchedValues,
    attached: &mut Attached,
    head: &mut Head,
    clauses: &Clauses,
    level: usize,
) -> Result<Option<usize>, Memory>
    requires running { IsRunningOn clauses.now level watched.old }
    requires loose { AreLoose clauses.now (entries_of watched.old.values) watched.old.pairs.items attached.old.loose.items head.old.passed }
    requires short { length attached.old.loose.items < 2 ^ 32 }
    requires head { head.old.place ≤ length (entries_of watched.old.values) }
    requires settled { IsSettled clauses.now watched.old.pairs.items (entries_of watched.old.values) head.old.place }
    requires copies { AreCopies clauses.now attached.old.arena watched.old.pairs.items }
    ensures running { OnOk result (IsRunningOn clauses.now level watched.new) }
    ensures runs { OnOk result (RunsOn clauses.now level watched.old watched.new) }
    ensures loose { OnOk result (AreLoose clauses.now (entries_of watched.new.values) watched.new.pairs.items attached.new.loose.items head.new.passed) }
    ensures copies { OnOk result (AreCopies clauses.now attached.new.arena watched.new.pairs.items) }
    ensures front { OnOk result (take head.old.passed attached.new.loose.items ≡ take head.old.passed attached.old.loose.items) }
    ensures short { length attached.new.loose.items ≤ length attached.old.loose.items }
    ensures on { OnOk result (head.old.passed ≤ head.new.passed) }
    ensures head { OnOk result (head.new.place ≤ length (entries_of watched.new.values)) }
    ensures settled { OnOk result (IsSettled clauses.now watched.new.pairs.items (entries_of watched.new.values) head.new.place) }
    ensures conflict { IfOk result (λ found. IfSome found (IsConflict clauses.now (entries_of watched.new.values))) }
    ensures stable { IfOk result (λ found. IfNone found (IsStable clauses.now (entries_of watched.new.values))) }
    ensures values { AreValues watched.new.values }
    ensures added { Propagates clauses.now (at_level level watched.old.values) (at_level level watched.new.values) }
    ensures size { length watched.new.lists.items ≡ length watched.old.lists.items }
{
    if let Some(number) = settle_loose(watched, attached, &mut head.passed, clauses, level)? {
        return Ok(Some(number));
    }
    let found = visit_trail(watched, &attached.arena, level, &mut head.place)?;
    Ok(found)
}
