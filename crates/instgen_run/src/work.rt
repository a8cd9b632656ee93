// The work on a picked entry: what it and its partners infer.
ghost use Rattle.std.specs.Prelude.{◌≡◌, ◌<◌, ◌≤◌, ℕ, true, false, length, Contains, IfOk, IfSome, OnOk};
ghost use Rattle.inst_logic.specs.Tree.{Tree};
ghost use Rattle.inst_logic.specs.Unifiers.{Sided, IsMostGeneral};
ghost use Rattle.unify_core.specs.Sides.{IsResolvedBy, of_pair, of_side};
ghost use Rattle.term_index.specs.Pairs.{Posting};
ghost use Rattle.instgen_run.specs.Loops.{IsConsistent, Goes, IsSelectedAtom, IsSelectedTree, IsSideWorked, IsSelectedLiteral, IsPairWorked, IsStored, IsUnified};
ghost use Rattle.instgen_run.specs.Alike.{IsWorkedWith, IsDoneWith};
ghost use Rattle.instgen_run.specs.Running.{AreOpposite, ArePaired, KeepsRunning};

use crate::infer::{clause_of, infer, literal_at, place_of};
use crate::state::Run;
use compact_lists::PackedLit;
use inst_logic::Memory;
use prop_logic::Solver;
use std::alloc::Global;
use term_bank::{IdLiteral, TermId};
use term_index::{PartnerIndex, View};
use unify_core::Side;

// The atom of the selected literal of entry `n`.
pub fn selected_atom<S: Solver, I: PartnerIndex>(run: &Run<S, I>, n: usize) -> TermId
    requires safe { IsConsistent S.atoms I.pairs I.fits run.now }
    requires within { (0 < n) × (n ≤ length run.now.selection.places) }
    ensures { IsSelectedAtom run.now n result }
{
    let place = place_of(run, n);
    let literal = literal_at(clause_of(run, n).as_slice(), place);
    literal.atom
}

// Two entries whose selected literals the bindings unify: that of entry `from` stands on this side of them.
#[derive(Clone, Copy, Debug)]
struct Meeting {
    side: Side,
    from: usize,
    partner: usize,
}

// What entry `from` gives with entry `partner` is covered or held back, where the bindings are proper for its side.
fn infer_where_proper<S: Solver, I: PartnerIndex>(
    alloc: Global,
    run: &mut Run<S, I>,
    at: Meeting,
) -> Result<(), Memory>
    requires safe { IsConsistent S.atoms I.pairs I.fits run.old }
    requires from { (0 < at.from) × (at.from ≤ length run.old.selection.places) }
    requires partner { (0 < at.partner) × (at.partner ≤ length run.old.selection.places) }
    requires unified { IsUnified run.old.entries.bank run.old.bindings.entries }
    ensures safe { OnOk result (IsConsistent S.atoms I.pairs I.fits run.new) }
    ensures goes { OnOk result (Goes run.old run.new) }
    ensures bindings { OnOk result (run.new.bindings.entries ≡ run.old.bindings.entries) }
    ensures running { OnOk result (ArePaired run.old at.side at.from at.partner → KeepsRunning S.atoms S.added run.old run.new) }
    ensures worked { OnOk result ((a b : Tree) (s : Sided) → IsResolvedBy run.old.entries.bank run.old.bindings.entries s → IsMostGeneral s a b → IsSelectedTree run.old at.from (of_pair at.side a b)
        → IsSideWorked run.new (of_side s at.side) at.from at.partner) }
{
    if run.bindings.proper(&run.entries.bank, at.side) {
        infer(alloc, run, at.side, at.from, at.partner)
    } else {
        Ok(())
    }
}

// What entry `from` gives with entry `partner` so, and nothing where that is known to be covered.
fn infer_unless_done<S: Solver, I: PartnerIndex>(
    alloc: Global,
    run: &mut Run<S, I>,
    at: Meeting,
    is_done: bool,
) -> Result<(), Memory>
    requires safe { IsConsistent S.atoms I.pairs I.fits run.old }
    requires from { (0 < at.from) × (at.from ≤ length run.old.selection.places) }
    requires partner { (0 < at.partner) × (at.partner ≤ length run.old.selection.places) }
    requires unified { IsUnified run.old.entries.bank run.old.bindings.entries }
    ensures safe { OnOk result (IsConsistent S.atoms I.pairs I.fits run.new) }
    ensures goes { OnOk result (Goes run.old run.new) }
    ensures bindings { OnOk result (run.new.bindings.entries ≡ run.old.bindings.entries) }
    ensures running { OnOk result (ArePaired run.old at.side at.from at.partner → KeepsRunning S.atoms S.added run.old run.new) }
    ensures worked { OnOk result (is_done ≡ false → (a b : Tree) (s : Sided) → IsResolvedBy run.old.entries.bank run.old.bindings.entries s → IsMostGeneral s a b → IsSelectedTree run.old at.from (of_pair at.side a b)
        → IsSideWorked run.new (of_side s at.side) at.from at.partner) }
{
    if is_done {
        Ok(())
    } else {
        infer_where_proper(alloc, run, at)
    }
}

// Which conclusions of two entries are known to be covered: that of the first, and that of the second.
#[derive(Clone, Copy, Debug)]
struct Done {
    first: bool,
    second: bool,
}

// Works two entries with each other.
fn work_pair<S: Solver, I: PartnerIndex>(
    alloc: Global,
    run: &mut Run<S, I>,
    i: usize,
    j: usize,
    done: Done,
) -> Result<(), Memory>
    requires safe { IsConsistent S.atoms I.pairs I.fits run.old }
    requires first { (0 < i) × (i ≤ length run.old.selection.places) }
    requires second { (0 < j) × (j ≤ length run.old.selection.places) }
    requires first_done { done.first ≡ true → IsWorkedWith run.old i j }
    requires second_done { done.second ≡ true → IsWorkedWith run.old j i }
    ensures safe { OnOk result (IsConsistent S.atoms I.pairs I.fits run.new) }
    ensures goes { OnOk result (Goes run.old run.new) }
    ensures running { OnOk result (AreOpposite run.old i j → KeepsRunning S.atoms S.added run.old run.new) }
    ensures worked { OnOk result (IsPairWorked run.new i j) }
{
    let a = selected_atom(run, i);
    let b = selected_atom(run, j);
    if !run.bindings.unify(&run.entries.bank, a, b)? {
        return Ok(());
    }
    let first = Meeting {
        side: Side::Left,
        from: i,
        partner: j,
    };
    let second = Meeting {
        side: Side::Right,
        from: j,
        partner: i,
    };
    infer_unless_done(alloc, run, first, done.first)?;
    infer_unless_done(alloc, run, second, done.second)?;
    Ok(())
}

// The selected literal of entry `n`.
fn selected_literal<S: Solver, I: PartnerIndex>(run: &Run<S, I>, n: usize) -> IdLiteral
    requires safe { IsConsistent S.atoms I.pairs I.fits run.now }
    requires within { (0 < n) × (n ≤ length run.now.selection.places) }
    ensures { IsSelectedLiteral run.now n result }
{
    let place = place_of(run, n);
    literal_at(clause_of(run, n).as_slice(), place)
}

// Whether the other entry has the same literal selected, and nothing is held back: what is worked with one of them is covered for
// the other.
fn is_done_with<S: Solver, I: PartnerIndex>(run: &Run<S, I>, other: Option<usize>, n: usize) -> bool
    requires safe { IsConsistent S.atoms I.pairs I.fits run.now }
    requires other { IfSome other (λ k. (0 < k) × (k ≤ length run.now.selection.places)) }
    requires within { (0 < n) × (n ≤ length run.now.selection.places) }
    ensures { result ≡ true → IsDoneWith run.now other n }
{
    match other {
        None => false,
        Some(k) => run.held.is_empty() && selected_literal(run, k) == selected_literal(run, n),
    }
}

fn are_both(first: bool, second: bool) -> bool
    ensures { result ≡ true → (first ≡ true) × (second ≡ true) }
{
    first && second
}

// A picked entry, and maybe an indexed one that may have the same literal selected.
#[derive(Clone, Copy, Debug)]
struct Pick {
    entry: usize,
    indexed: Option<usize>,
}

// Works a picked entry with the next partner. The conclusion of the picked one is covered where the last partner has the same
// literal selected, and that of the partner where an indexed entry has the literal of the picked one selected.
fn work_next<S: Solver, I: PartnerIndex>(
    alloc: Global,
    run: &mut Run<S, I>,
    pick: Pick,
    last: Option<usize>,
    j: usize,
) -> Result<(), Memory>
    requires safe { IsConsistent S.atoms I.pairs I.fits run.old }
    requires picked { (0 < pick.entry) × (pick.entry ≤ length run.old.selection.places) }
    requires partner { (0 < j) × (j ≤ length run.old.selection.places) }
    requires last { IfSome last (λ k. (0 < k) × (k ≤ length run.old.selection.places) × IsPairWorked run.old pick.entry k) }
    requires indexed { IfSome pick.indexed (λ k. (0 < k) × (k ≤ length run.old.selection.places) × IsPairWorked run.old k j) }
    ensures safe { OnOk result (IsConsistent S.atoms I.pairs I.fits run.new) }
    ensures goes { OnOk result (Goes run.old run.new) }
    ensures running { OnOk result (AreOpposite run.old pick.entry j → KeepsRunning S.atoms S.added run.old run.new) }
    ensures worked { OnOk result (IsPairWorked run.new pick.entry j) }
{
    let first = is_done_with(run, last, j);
    let second = is_done_with(run, pick.indexed, pick.entry);
    if are_both(first, second) {
        Ok(())
    } else {
        work_pair(alloc, run, pick.entry, j, Done { first, second })
    }
}

// Works a picked entry with all entries that an index has.
fn work_all<S: Solver, I: PartnerIndex>(
    alloc: Global,
    run: &mut Run<S, I>,
    partners: &I,
    pick: Pick,
) -> Result<(), Memory>
    requires safe { IsConsistent S.atoms I.pairs I.fits run.old }
    requires picked { (0 < pick.entry) × (pick.entry ≤ length run.old.selection.places) }
    requires fits { I.fits run.old.entries.bank partners.now }
    requires stored { (p : Posting) → Contains (I.pairs partners.now) p → IsStored run.old p }
    requires indexed { IfSome pick.indexed (λ k. (0 < k) × (k ≤ length run.old.selection.places) × ((p : Posting) → Contains (I.pairs partners.now) p → IsPairWorked run.old k p.1)) }
    ensures safe { OnOk result (IsConsistent S.atoms I.pairs I.fits run.new) }
    ensures goes { OnOk result (Goes run.old run.new) }
    ensures running { OnOk result (((p : Posting) → Contains (I.pairs partners.now) p → AreOpposite run.old pick.entry p.1) → KeepsRunning S.atoms S.added run.old run.new) }
    ensures worked { OnOk result ((p : Posting) → Contains (I.pairs partners.now) p → IsPairWorked run.new pick.entry p.1) }
{
    let atom = selected_atom(run, pick.entry);
    let mut last = None;
    let mut cursor = partners.start(&run.entries.bank, atom, View::Unifiable)?;
    loop {
        match partners.next(&mut cursor)? {
            None => return Ok(()),
            Some(j) => {
                work_next(alloc, run, pick, last, j)?;
                last = Some(j);
            }
        }
    }
}

// An entry that the index has: the first of those whose atoms generalise the selected atom of entry `n`. In a tree those with
// the same symbols come first.
fn first_like<S: Solver, I: PartnerIndex>(
    run: &Run<S, I>,
    index: &I,
    n: usize,
) -> Result<Option<usize>, Memory>
    requires safe { IsConsistent S.atoms I.pairs I.fits run.now }
    requires within { (0 < n) × (n ≤ length run.now.selection.places) }
    requires fits { I.fits run.now.entries.bank index.now }
    ensures { IfOk result (λ o. IfSome o (λ k. (atom : ℕ) × Contains (I.pairs index.now) (atom, k))) }
{
    let atom = selected_atom(run, n);
    let mut cursor = index.start(&run.entries.bank, atom, View::Generalisations)?;
    index.next(&mut cursor)
}

// The numbered form of the selected literal of entry `n`.
fn numbered_literal<S: Solver, I: PartnerIndex>(run: &Run<S, I>, n: usize) -> Option<&PackedLit>
    requires { (0 < n) × (n ≤ length run.now.selection.places) }
{
    match run.ground.literals.get(n - 1) {
        None => None,
        Some(clause) => clause.get(place_of(run, n).saturating_sub(1)),
    }
}

// Whether another entry may have the same literal selected: it has the numbered atom of entry `n`.
fn is_shared<S: Solver, I: PartnerIndex>(run: &Run<S, I>, n: usize) -> bool
    requires { (0 < n) × (n ≤ length run.now.selection.places) }
{
    match numbered_literal(run, n) {
        None => false,
        Some(literal) => run.selection.is_shared(literal.lit().atom),
    }
}

// An entry that the index has so, where one may have the literal of entry `n` selected.
fn first_shared<S: Solver, I: PartnerIndex>(
    run: &Run<S, I>,
    index: &I,
    n: usize,
) -> Result<Option<usize>, Memory>
    requires safe { IsConsistent S.atoms I.pairs I.fits run.now }
    requires within { (0 < n) × (n ≤ length run.now.selection.places) }
    requires fits { I.fits run.now.entries.bank index.now }
    ensures { IfOk result (λ o. IfSome o (λ k. (atom : ℕ) × Contains (I.pairs index.now) (atom, k))) }
{
    if is_shared(run, n) {
        first_like(run, index, n)
    } else {
        Ok(None)
    }
}

/// Works an entry with all entries that an index has: those of the opposite sign. The other index has those of its own sign.
pub fn work_with<S: Solver, I: PartnerIndex>(
    alloc: Global,
    run: &mut Run<S, I>,
    own: &I,
    partners: &I,
    i: usize,
) -> Result<(), Memory>
    requires safe { IsConsistent S.atoms I.pairs I.fits run.old }
    requires picked { (0 < i) × (i ≤ length run.old.selection.places) }
    requires fits { I.fits run.old.entries.bank partners.now }
    requires own_fits { I.fits run.old.entries.bank own.now }
    requires stored { (p : Posting) → Contains (I.pairs partners.now) p → IsStored run.old p }
    requires own_stored { (p : Posting) → Contains (I.pairs own.now) p → IsStored run.old p }
    requires worked { (p q : Posting) → Contains (I.pairs own.now) p → Contains (I.pairs partners.now) q → IsPairWorked run.old p.1 q.1 }
    ensures safe { OnOk result (IsConsistent S.atoms I.pairs I.fits run.new) }
    ensures goes { OnOk result (Goes run.old run.new) }
    ensures running { OnOk result (((p : Posting) → Contains (I.pairs partners.now) p → AreOpposite run.old i p.1) → KeepsRunning S.atoms S.added run.old run.new) }
    ensures worked { OnOk result ((p : Posting) → Contains (I.pairs partners.now) p → IsPairWorked run.new i p.1) }
{
    let indexed = first_shared(run, own, i)?;
    work_all(alloc, run, partners, Pick { entry: i, indexed })
}
