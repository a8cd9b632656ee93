// The state of the loop.
ghost use Rattle.std.specs.Prelude.{◌≡◌, ◌≤◌, ◌++◌, ◌∷◌, [], List, length, Contains, OnOk};
ghost use Rattle.inst_logic.specs.declared.symbol.Sym.{Sym};
ghost use Rattle.inst_logic.specs.Clauses.{TreeClause, IsCanonical};
ghost use Rattle.term_bank.specs.Forest.{clause_at, IsClauseOf};
ghost use Rattle.cert_values.specs.Wholes.{IsWholeClause};
ghost use Rattle.instgen_run.specs.Clauses.{Item};
ghost use Rattle.instgen_run.specs.Loops.{IsConsistent, Appends, KeepsLink};

use crate::entries::{Entries, push_entry};
use crate::event_log::EventLog;
use crate::ground::{Ground, add_entry};
use crate::origin::PackedOrigin;
use crate::premises::Premises;
use crate::scratch::Scratch;
use crate::selection::Selection;
use clause_form::{clause_size, greatest_variable};
use global_subs::Known;
use inst_logic::Memory;
use instgen_select::Passive;
use prop_logic::Solver;
use std::alloc::Global;
use term_bank::{Bank, IdClause};
use term_index::PartnerIndex;
use unify_core::Bindings;

/// What the loop keeps beside the indexes of selected literals.
#[derive(Drop)]
pub struct Run<S: Solver, I: PartnerIndex> {
    pub entries: Entries<I>,
    pub ground: Ground<S>,
    /// The clauses of the entries, by which conclusions are reduced.
    pub known: Known<S>,
    pub selection: Selection,
    pub queue: Passive,
    /// Of the conclusions that did not fit into the budget.
    pub held: Vec<Premises>,
    pub log: EventLog,
    pub bindings: Bindings,
    pub scratch: Scratch,
    /// What is left of the budget, in symbols. There is none on function-free problems.
    pub left: Option<u64>,
}

/// The number of variables of a clause in canonical form.
pub fn variable_count(bank: &Bank, clause: &IdClause) -> usize
    requires { IsClauseOf bank.now clause.now }
{
    match greatest_variable(bank, clause) {
        None => 0,
        Some(greatest) => greatest.saturating_add(1),
    }
}

/// Makes a new clause with its origin an entry, which waits: the one place at which entries are made.
pub fn append<S: Solver, I: PartnerIndex>(
    run: &mut Run<S, I>,
    clause: IdClause,
    origin: PackedOrigin,
) -> Result<(), Memory>
    requires safe { IsConsistent S.atoms I.pairs I.fits run.old }
    requires whole { IsWholeClause run.old.entries.bank clause }
    requires canonical { IsCanonical (clause_at run.old.entries.bank clause) }
    requires new { (e : Item) → Contains run.old.entries.clauses.entries e → ¬ (e.0 ≡ clause) }
    requires bounded { length clause ≤ run.old.entries.longest }
    ensures safe { OnOk result (IsConsistent S.atoms I.pairs I.fits run.new) }
    ensures appends { OnOk result (Appends run.old run.new clause origin) }
    ensures linked { OnOk result (KeepsLink S.atoms S.added run.old run.new) }
{
    let number = run.entries.clauses.len() + 1;
    let size = clause_size(&run.entries.bank, &clause);
    let variables = variable_count(&run.entries.bank, &clause);
    add_entry(&mut run.entries.bank, &mut run.ground, &clause)?;
    run.known.entry(&run.entries.bank, &clause)?;
    run.queue.put(number, size, variables)?;
    push_entry(&mut run.entries, clause, origin)
}
