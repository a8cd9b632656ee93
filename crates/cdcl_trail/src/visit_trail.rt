// The literals that became false, in the order of the trail, which is the queue of propagation too. No other queue is kept,
// and what is taken off the trail is off the queue.
ghost use Rattle.std.specs.Prelude.{◌≡◌, ◌<◌, ◌≤◌, length, IfOk, IfSome, IfNone, OnOk};
ghost use Rattle.cdcl_trail.specs.Propagation.{IsConflict, Propagates};
ghost use Rattle.cdcl_trail.specs.Values.{AreValues, entries_of};
ghost use Rattle.cdcl_trail.specs.Watching.{IsSettled};
ghost use Rattle.cdcl_trail.specs.Running.{at_level, IsRunningOn, RunsOn};

use crate::arena::Arena;
use crate::visit_list::visit_list;
use crate::watched_values::WatchedValues;
use inst_logic::Memory;
use prop_logic::complement;

// Visits the clauses of each literal from the head on, up to one that is false, whose number is the answer. The head stays
// before the literal at which that one was found.
pub(crate) fn visit_trail(
    watched: &mut WatchedValues,
    clauses: &Arena,
    level: usize,
    head: &mut u32,
) -> Result<Option<usize>, Memory>
    requires running { IsRunningOn clauses.now level watched.old }
    requires head { head.old ≤ length (entries_of watched.old.values) }
    requires settled { IsSettled clauses.now watched.old.pairs.items (entries_of watched.old.values) head.old }
    ensures running { OnOk result (IsRunningOn clauses.now level watched.new) }
    ensures runs { OnOk result (RunsOn clauses.now level watched.old watched.new) }
    ensures conflict { IfOk result (λ found. IfSome found (IsConflict clauses.now (entries_of watched.new.values))) }
    ensures head { OnOk result (head.new ≤ length (entries_of watched.new.values)) }
    ensures settled { OnOk result (IsSettled clauses.now watched.new.pairs.items (entries_of watched.new.values) head.new) }
    ensures whole { IfOk result (λ found. IfNone found (head.new ≡ length (entries_of watched.new.values))) }
    ensures values { AreValues watched.new.values }
    ensures added { Propagates clauses.now (at_level level watched.old.values) (at_level level watched.new.values) }
    ensures size { length watched.new.lists.items ≡ length watched.old.lists.items }
{
    while (*head as usize) < watched.values.literals.len() {
        let l = complement(watched.values.literals[*head as usize]);
        if let Some(number) = visit_list(watched, clauses, level, l)? {
            return Ok(Some(number));
        }
        *head += 1;
    }
    Ok(None)
}
