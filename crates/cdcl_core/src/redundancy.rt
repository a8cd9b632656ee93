// Which literals a learned clause does not need: those that follow from its others by the clauses that gave them, and by the
// clauses that gave these literals in turn (Sörensson and Biere, Minimizing learned clauses, 2009).
ghost use Rattle.std.specs.Prelude.{◌≡◌, ◌<◌, length};
ghost use Rattle.cdcl_core.specs.Analysis.{IsReady};

use crate::reasons::Reasons;
use crate::seen::Seen;
use cdcl_trail::Trail;

// Whether the atom follows from the marked ones, where no clause is needed to know: those of level 0 do, and those of a level
// without marks do not.
fn follows_without_clause(trail: &Trail, seen: &Seen, atom: usize) -> Option<bool>
    requires size { length seen.now ≡ trail.now.trail.atoms }
    requires atom { atom < trail.now.trail.atoms }
{
    if seen.contains(atom) {
        return Some(true);
    }
    let level = trail.level_of(atom).unwrap_or(0);
    if level == 0 {
        return Some(true);
    }
    if !seen.has_level(level) {
        return Some(false);
    }
    seen.follows_if_known(atom)
}

// Whether the atom follows from the marked ones by clauses of which at most so many are used one after the other.
#[cycle(redundancy)]
fn follows(reasons: Reasons<'_>, seen: &mut Seen, atom: usize, depth: usize) -> bool
    requires ready { IsReady reasons.log.now reasons.trail.now.trail }
    requires size { length seen.old ≡ reasons.trail.now.trail.atoms }
    requires atom { atom < reasons.trail.now.trail.atoms }
    ensures { seen.new ≡ seen.old }
{
    if let Some(found) = follows_without_clause(reasons.trail, seen, atom) {
        return found;
    }
    if depth == 0 {
        return false;
    }
    match reasons.trail.reason(atom) {
        None => false,
        Some(number) => {
            // It is an atom of this clause itself.
            seen.find(atom, true);
            let found = all_follow(reasons, seen, number, depth - 1);
            seen.find(atom, found);
            found
        }
    }
}

// Whether all atoms of the clause of this number do.
#[cycle(redundancy)]
pub(crate) fn all_follow(reasons: Reasons<'_>, seen: &mut Seen, number: usize, depth: usize) -> bool
    requires ready { IsReady reasons.log.now reasons.trail.now.trail }
    requires size { length seen.old ≡ reasons.trail.now.trail.atoms }
    ensures { seen.new ≡ seen.old }
{
    for packed in reasons.log.cited_clause(reasons.log.hint_of(number)) {
        if !follows(reasons, seen, packed.lit().atom, depth) {
            return false;
        }
    }
    true
}
