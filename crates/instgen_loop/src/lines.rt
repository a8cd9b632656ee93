// The ground lines of a refutation: input clauses and axioms under ground terms, each with its number and these terms.
ghost use Rattle.std.specs.Prelude.{◌≡◌, ◌<◌, ◌≤◌, ◌+◌, Some, length, map, All, IsTrue, IfOk, OnOk};
ghost use Rattle.inst_logic.specs.Derivations.{at_number};
ghost use Rattle.inst_logic.specs.WellFormed.{IsTerm, is_constant};
ghost use Rattle.inst_calculus.specs.Unrolling.{AreMade, IsGrounded, all_unrolled, each_once};
ghost use Rattle.clause_form.specs.Conclusions.{AreTermIds};
ghost use Rattle.engine_laws.specs.GroundLines.{ground_line, ground_lines};
ghost use Rattle.global_subs.specs.Unrolls.{AreEntriesOf, entries_at, grounded_at, terms_of};
ghost use Rattle.cert_values.specs.Values.{line_of};
ghost use Rattle.term_bank.specs.Forest.{AreFormed, AreIds, Extends};
ghost use Rattle.instgen_loop.specs.Lines.{HasClauses, IsLineIn, IsLineOf, given_of, given_trees};

use crate::start::{Given, copied_clause, literals_after};
use cert_values::{GroundLine, GroundLineList};
use clause_form::under;
use global_subs::{Grounded, GroundedList, MadeList, unroll_all};
use inst_logic::{Memory, Sym};
use std::alloc::Global;
use term_bank::{Bank, IdLiteral};

// The clause of this number over the inputs and then the axioms.
fn clause_of(given: &Given, input: usize) -> &[IdLiteral]
    requires { (0 < input) × (input ≤ length given.now.inputs + length given.now.axioms) }
    ensures { at_number (given_of given.now) input ≡ Some result.now }
{
    let before = given.inputs.len();
    if input <= before {
        literals_after(&given.inputs, input - 1)
    } else {
        literals_after(&given.axioms, input - before - 1)
    }
}

// The clause that the item names under its terms.
fn line_of(
    alloc: Global,
    bank: &mut Bank,
    given: &Given,
    item: Grounded,
) -> Result<GroundLine, Memory>
    requires given { HasClauses bank.old given.now }
    requires item { IsGrounded (given_trees bank.old given.now) (grounded_at bank.old item) }
    requires ids { AreIds bank.old item.terms }
    ensures extends { Extends bank.old bank.new }
    ensures formed { OnOk result (AreFormed bank.old → AreTermIds bank.old item.terms → AreFormed bank.new) }
    ensures line { IfOk result (IsLineOf bank.old bank.new given.now item) }
{
    let clause = copied_clause(alloc, clause_of(given, item.input))?;
    let clause = under(alloc, bank, &clause, &item.terms)?;
    Ok(GroundLine {
        clause,
        input: item.input,
        terms: item.terms,
    })
}

// The lines of the items, in their order.
fn lines_of(
    alloc: Global,
    bank: &mut Bank,
    given: &Given,
    items: GroundedList,
) -> Result<GroundLineList, Memory>
    requires given { HasClauses bank.old given.now }
    requires items { All (IsGrounded (given_trees bank.old given.now)) (map (grounded_at bank.old) items) }
    requires ids { All (λ g. AreIds bank.old g.terms) items }
    ensures extends { Extends bank.old bank.new }
    ensures formed { OnOk result (AreFormed bank.old → All (λ g. AreTermIds bank.old g.terms) items → AreFormed bank.new) }
    ensures lines { IfOk result (λ lines. map (line_of bank.new) lines ≡ map (ground_line (given_trees bank.old given.now)) (map (grounded_at bank.old) items)) }
    ensures ids { IfOk result (All (IsLineIn bank.new)) }
{
    let items: Vec<Grounded> = items.into();
    let mut lines = Vec::with_capacity(alloc, items.len())?;
    for item in items {
        let line = line_of(alloc, bank, given, item)?;
        lines.push(line)?;
    }
    Ok(GroundLineList::from(lines))
}

/// The ground lines of the entries' unrolled lists, with the constant for every variable: each input with each terms once, in the
/// order of their first occurrence.
pub fn ground_lines(
    alloc: Global,
    bank: &mut Bank,
    bot: &Sym,
    given: &Given,
    made: &MadeList,
) -> Result<GroundLineList, Memory>
    requires given { HasClauses bank.old given.now }
    requires constant { IsTrue (is_constant bot.now) }
    requires entries { AreEntriesOf bank.old made.now }
    requires made { AreMade bot.now (given_trees bank.old given.now) (entries_at bank.old made.now) }
    requires terms { All (λ m. AreTermIds bank.old (terms_of m.how)) made.now }
    requires items { All (λ g. All IsTerm g.terms) (each_once (all_unrolled bot.now (entries_at bank.old made.now) (length made.now))) }
    ensures extends { Extends bank.old bank.new }
    ensures formed { OnOk result (AreFormed bank.old → AreFormed bank.new) }
    ensures lines { IfOk result (λ lines. map (line_of bank.new) lines ≡ ground_lines bot.now (given_trees bank.old given.now) (entries_at bank.old made.now)) }
    ensures ids { IfOk result (All (IsLineIn bank.new)) }
{
    let constant = bank.app(bot, &[])?;
    let items = unroll_all(alloc, bank, constant, made)?;
    let lines = lines_of(alloc, bank, given, items)?;
    Ok(lines)
}
