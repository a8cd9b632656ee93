// What is named for each input and axiom: it is found where the covers are, and compared where it is named.
ghost use Rattle.std.specs.Prelude.{◌≡◌, ◌≢◌, ◌↔◌, ◌<◌, ℕ, [], length, All, IfNone, IfOk, IfSome, IsTrue, None, OnOk, suc};
ghost use Rattle.inst_logic.specs.Derivations.{at_number};
ghost use Rattle.inst_calculus.specs.Axioms.{with_axioms};
ghost use Rattle.cert_format.specs.TermLists.{Justifies};
ghost use Rattle.cert_format.specs.Validity.{IsRightInput, IsShownInput};
ghost use Rattle.term_bank.specs.Forest.{AreFormed, Extends, clause_at};
ghost use Rattle.cert_values.specs.Values.{by_of, covered_of, entry_of, saturation_of};
ghost use Rattle.cert_values.specs.Wholes.{IsWholeBy, IsWholeClause, IsWholeCovered, IsWholeSaturation, KeepsCovered, KeepsSaturation};
ghost use Rattle.cert_check.specs.Compared.{IsComparable};
ghost use Rattle.cert_check.specs.DueSteps.{GrowsShown};
ghost use Rattle.cert_check.specs.Firsts.{IsFirstWrongOf};
ghost use Rattle.cert_check.specs.Grounds.{AreCanonicalMembers};
ghost use Rattle.cert_index.specs.Lookups.{IsLookup, IsReady};
ghost use Rattle.cert_check.specs.Names.{IsShownBy, IsUnshown, JustifiesInput};

use crate::inputs::{sources, stated_count, subsuming_place_from};
use crate::naming::part_of;
use crate::origin::clause_by_number;
use cert_index::Lookup;
use cert_names::justifies;
use cert_values::{By, ByList, Covered, Member, Saturation};
use clause_form::long_tautology;
use inst_logic::Memory;
use std::alloc::Global;
use term_bank::{Bank, IdClause};

// What justifies the clause. The member at the place is tried before the others, unless one is the clause.
fn find_shown(
    alloc: Global,
    bank: &mut Bank,
    members: &[Member],
    lookup: &Lookup,
    first: Option<usize>,
    c: &IdClause,
) -> Result<Option<By>, Memory>
    requires members { All (λ m. IsWholeClause bank.old m.clause) members.now }
    requires members_canonical { AreCanonicalMembers bank.old members.now }
    requires lookup { IsLookup bank.old members.now lookup.now }
    requires clause { IsWholeClause bank.old c.now }
    ensures some { IfOk result (λ o. IfSome o (IsShownBy bank.old bank.new members.now c.now)) }
    ensures none { IfOk result (λ o. IfNone o (IsUnshown bank.old members.now c.now)) }
    ensures extends { Extends bank.old bank.new }
    ensures formed { AreFormed bank.old → AreFormed bank.new }
{
    if let Some(k) = lookup.place_of(c) {
        let by = part_of(alloc, bank, members, k, c)?;
        return Ok(Some(by));
    }
    bank.distinct();
    if long_tautology(alloc, c)? {
        return Ok(Some(By::Tautology));
    }
    match subsuming_place_from(alloc, bank, members, first, c)? {
        None => Ok(None),
        Some(k) => {
            let by = part_of(alloc, bank, members, k, c)?;
            Ok(Some(by))
        }
    }
}

// What justifies clause `k` of the inputs and then the axioms, counted from 1.
fn shown_input(
    alloc: Global,
    cert: &mut Saturation,
    lookup: &Lookup,
    first: Option<usize>,
    k: usize,
) -> Result<Option<By>, Memory>
    requires ready { IsReady cert.old lookup.now }
    ensures kept { KeepsSaturation cert.old cert.new }
    ensures whole { OnOk result (IsWholeSaturation cert.new) }
    ensures some { IfOk result (λ o. IfSome o (JustifiesInput cert.old cert.new k)) }
    ensures right { IfOk result (λ o. IfSome o (λ _. IsRightInput (saturation_of cert.old) k)) }
    ensures none { IfOk result (λ o. IfNone o (at_number (with_axioms (saturation_of cert.old).base.inputs) k ≢ None → ¬ (IsRightInput (saturation_of cert.old) k))) }
{
    let base = &mut cert.base;
    match clause_by_number(&base.inputs, &base.axioms, k) {
        None => Ok(None),
        Some(c) => find_shown(
            alloc,
            &mut base.bank,
            base.members.as_slice(),
            lookup,
            first,
            c,
        ),
    }
}

// Adds what justifies each input and axiom, up to the first that nothing justifies, whose number is the answer.
pub fn show_inputs(
    alloc: Global,
    cert: &mut Covered,
    lookup: &Lookup,
) -> Result<Option<usize>, Memory>
    requires whole { IsWholeCovered cert.old }
    requires ready { IsReady cert.old.cert lookup.now }
    requires none { cert.old.shown ≡ [] }
    ensures kept { GrowsShown cert.old cert.new }
    ensures whole { OnOk result (IsWholeCovered cert.new) }
    ensures first { IfOk result (IsFirstWrongOf (IsRightInput (saturation_of cert.old.cert))) }
    ensures shown { IfOk result (λ o. o ≡ None → (k : ℕ) → IsShownInput (covered_of cert.new) k) }
{
    let places = sources(alloc, cert.cert.base.members.as_slice())?;
    for i in 0..stated_count(&cert.cert.base) {
        let number = i + 1;
        let first = places.get(&number).copied();
        match shown_input(alloc, &mut cert.cert, lookup, first, number)? {
            None => return Ok(Some(number)),
            Some(by) => cert.shown.push(by)?,
        }
    }
    Ok(None)
}

// Whether the list ends before number `k`.
fn is_past(shown: &ByList, k: usize) -> bool
    ensures { IsTrue result ↔ (length shown.now < k) }
{
    shown.len() < k
}

// Whether what is named for clause `k` of the inputs and then the axioms, counted from 1, justifies it, or neither is there.
fn is_shown(alloc: Global, cert: &mut Covered, k: usize) -> Result<bool, Memory>
    requires comparable { IsComparable cert.old }
    requires number { 0 < k }
    ensures kept { KeepsCovered cert.old cert.new }
    ensures whole { OnOk result (IsWholeCovered cert.new) }
    ensures shown { IfOk result (λ r. IsTrue r ↔ IsShownInput (covered_of cert.old) k) }
{
    let base = &mut cert.cert.base;
    match clause_by_number(&base.inputs, &base.axioms, k) {
        None => Ok(is_past(&cert.shown, k)),
        Some(c) => match cert.shown.get(k - 1) {
            None => Ok(false),
            Some(by) => justifies(alloc, &mut base.bank, &base.members, c, by),
        },
    }
}

// The number of the first input or axiom that is not shown by what is named for it, or of the first that is alone.
pub fn wrong_shown(alloc: Global, cert: &mut Covered) -> Result<Option<usize>, Memory>
    requires comparable { IsComparable cert.old }
    ensures kept { KeepsCovered cert.old cert.new }
    ensures whole { OnOk result (IsWholeCovered cert.new) }
    ensures first { IfOk result (IsFirstWrongOf (IsShownInput (covered_of cert.old))) }
{
    for i in 0..stated_count(&cert.cert.base).max(cert.shown.len()) {
        if !is_shown(alloc, cert, i + 1)? {
            return Ok(Some(i + 1));
        }
    }
    Ok(None)
}
