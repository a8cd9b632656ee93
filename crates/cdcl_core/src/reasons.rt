// The reasons of literals, and what they raise.
ghost use Rattle.std.specs.Prelude.{◌≡◌, length};
ghost use Rattle.prop_logic.specs.Literal.{AtomsBelow};
ghost use Rattle.cdcl_core.specs.Analysis.{IsReady};

use crate::log::Log;
use crate::seen::Seen;
use cdcl_trail::Trail;
use compact_lists::PackedLit;
use prop_logic::Lit;

// The clauses by which the trail's literals were set: what a conflict is traced back through.
#[derive(Clone, Copy)]
pub(crate) struct Reasons<'a> {
    pub(crate) log: &'a Log,
    pub(crate) trail: &'a Trail,
}

// Marks the atoms of the clause that aren't, which raises them.
fn mark_others(seen: &mut Seen, clause: &[PackedLit])
    requires { AtomsBelow (length seen.old) clause.now }
    ensures { length seen.new ≡ length seen.old }
{
    for packed in clause {
        let lit = packed.lit();
        if !seen.contains(lit.atom) {
            seen.insert(lit.atom);
        }
    }
}

// Marks the atoms of the clauses that gave the atoms of this clause their values. They rise too, and not only those that the
// conflict was resolved from (Liang and others, Learning rate based branching heuristic for SAT solvers, 2016): they would be met
// next if the walk went on, and are likely to be in the next conflicts.
pub(crate) fn mark_reasons(reasons: Reasons<'_>, seen: &mut Seen, clause: &[Lit])
    requires ready { IsReady reasons.log.now reasons.trail.now.trail }
    requires size { length seen.old ≡ reasons.trail.now.trail.atoms }
    requires atoms { AtomsBelow reasons.trail.now.trail.atoms clause.now }
    ensures { length seen.new ≡ length seen.old }
{
    for lit in clause {
        if let Some(number) = reasons.trail.reason(lit.atom) {
            mark_others(seen, reasons.log.cited_clause(reasons.log.hint_of(number)));
        }
    }
}
