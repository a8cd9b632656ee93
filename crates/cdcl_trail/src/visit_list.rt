// The clauses that watch a literal that became false. Where one goes over to another literal, the last of the list takes its
// place; so the walk stays where it is, and nothing is copied to close the gap.
ghost use Rattle.std.specs.Prelude.{◌≡◌, ◌<◌, ℕ, length, IfOk, IfSome, IfNone, OnOk, Contains};
ghost use Rattle.cdcl_trail.specs.Propagation.{IsFalseIn, IsConflict, Propagates};
ghost use Rattle.cdcl_trail.specs.Values.{AreValues, entries_of};
ghost use Rattle.cdcl_trail.specs.Watch.{slot_of};
ghost use Rattle.cdcl_trail.specs.Watching.{IsTrueAt};
ghost use Rattle.cdcl_trail.specs.Running.{at_level, numbers_at, IsRunningOn, RunsOn};

use crate::arena::Arena;
use crate::visit::{Visit, visit_at};
use crate::watch::Spot;
use crate::watched_values::WatchedValues;
use inst_logic::Memory;
use prop_logic::Lit;

// Visits the clauses of the literal's list, up to one that is false, whose number is the answer.
pub(crate) fn visit_list(
    watched: &mut WatchedValues,
    clauses: &Arena,
    level: usize,
    l: Lit,
) -> Result<Option<usize>, Memory>
    requires running { IsRunningOn clauses.now level watched.old }
    requires is_false { IsFalseIn (entries_of watched.old.values) l }
    requires slot { slot_of l < length watched.old.lists.items }
    ensures running { OnOk result (IsRunningOn clauses.now level watched.new) }
    ensures runs { OnOk result (RunsOn clauses.now level watched.old watched.new) }
    ensures conflict { IfOk result (λ found. IfSome found (IsConflict clauses.now (entries_of watched.new.values))) }
    ensures settled { IfOk result (λ found. IfNone found ((n : ℕ) → Contains (numbers_at watched.new.lists.items (slot_of l)) n → IsTrueAt clauses.now (entries_of watched.new.values) n)) }
    ensures values { AreValues watched.new.values }
    ensures added { Propagates clauses.now (at_level level watched.old.values) (at_level level watched.new.values) }
    ensures size { length watched.new.lists.items ≡ length watched.old.lists.items }
{
    let mut place = 0;
    while place < watched.count_at(l) {
        let spot = Spot { l, place };
        match visit_at(watched, clauses, level, spot)? {
            Visit::Kept => place += 1,
            Visit::Moved => {}
            Visit::False(number) => return Ok(Some(number)),
        }
    }
    Ok(None)
}
