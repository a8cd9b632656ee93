// The parts of a certificate: its lines of one kind, numbered from 1.
ghost use Rattle.std.specs.Prelude.{◌≡◌, ◌+◌, ◌++◌, OnOk, map, drop, All};
ghost use Rattle.term_bank.specs.Forest.{clause_at};
ghost use Rattle.cert_format.specs.Lines.{input_line, axiom_line, member_line, selected_line, ground_line_by, shown_line, cover_line, step_line};
ghost use Rattle.cert_format.specs.Text.{numbered_lines, paired_lines};
ghost use Rattle.cert_values.specs.Values.{by_of, cover_of, entry_of, line_of, step_of};
ghost use Rattle.cert_values.specs.Wholes.{IsWholeBy, IsWholeClause, IsWholeCover, IsWholeLine};

use crate::lines::{
    push_axiom, push_cover, push_ground, push_input, push_member, push_selected, push_shown,
    push_step,
};
use crate::pen::Pen;
use cert_values::{By, Cover, GroundLine, GroundStep, Member};
use inst_logic::{Memory, Name};
use term_bank::{Bank, IdClause};

// The input clauses with the names of their statements.
pub fn push_inputs(
    pen: &mut Pen,
    bank: &Bank,
    clauses: &[IdClause],
    names: &[Name],
) -> Result<(), Memory>
    requires { All (IsWholeClause bank.now) clauses.now }
    ensures { OnOk result (pen.new ≡ pen.old ++ paired_lines input_line 1 (map (clause_at bank.now) clauses.now) names.now) }
{
    for i in 0..clauses.len().min(names.len()) {
        push_input(pen, bank, i + 1, &clauses[i], names[i].bytes())?;
    }
    Ok(())
}

// The axioms of equality.
pub fn push_axioms(pen: &mut Pen, bank: &Bank, clauses: &[IdClause]) -> Result<(), Memory>
    requires { All (IsWholeClause bank.now) clauses.now }
    ensures { OnOk result (pen.new ≡ pen.old ++ numbered_lines axiom_line 1 (map (clause_at bank.now) clauses.now)) }
{
    for i in 0..clauses.len() {
        push_axiom(pen, bank, i + 1, &clauses[i])?;
    }
    Ok(())
}

// The members with their origins.
pub fn push_members(pen: &mut Pen, bank: &Bank, members: &[Member]) -> Result<(), Memory>
    requires { All (λ m. IsWholeClause bank.now m.clause) members.now }
    ensures { OnOk result (pen.new ≡ pen.old ++ numbered_lines member_line 1 (map (entry_of bank.now) members.now)) }
{
    for i in 0..members.len() {
        push_member(pen, bank, i + 1, &members[i])?;
    }
    Ok(())
}

// The members with their origins and the places of their selected literals.
pub fn push_selected_members(
    pen: &mut Pen,
    bank: &Bank,
    members: &[Member],
    places: &[usize],
) -> Result<(), Memory>
    requires { All (λ m. IsWholeClause bank.now m.clause) members.now }
    ensures { OnOk result (pen.new ≡ pen.old ++ paired_lines selected_line 1 (map (entry_of bank.now) members.now) places.now) }
{
    for i in 0..members.len().min(places.len()) {
        push_selected(pen, bank, i + 1, &members[i], places[i])?;
    }
    Ok(())
}

// The ground clauses.
pub fn push_grounds(pen: &mut Pen, bank: &Bank, lines: &[GroundLine]) -> Result<(), Memory>
    requires { All (IsWholeLine bank.now) lines.now }
    ensures { OnOk result (pen.new ≡ pen.old ++ numbered_lines ground_line_by 1 (map (line_of bank.now) lines.now)) }
{
    for i in 0..lines.len() {
        push_ground(pen, bank, i + 1, &lines[i])?;
    }
    Ok(())
}

// What shows each of the clauses, of which `before` stand before them.
pub fn push_shown_clauses(
    pen: &mut Pen,
    bank: &Bank,
    clauses: &[IdClause],
    shown: &[By],
    before: usize,
) -> Result<(), Memory>
    requires clauses { All (IsWholeClause bank.now) clauses.now }
    requires shown { All (IsWholeBy bank.now) shown.now }
    ensures { OnOk result (pen.new ≡ pen.old ++ paired_lines shown_line (before + 1) (map (clause_at bank.now) clauses.now) (map (by_of bank.now) (drop before shown.now))) }
{
    for i in 0..clauses.len().min(shown.len().saturating_sub(before)) {
        let n = before + i;
        push_shown(pen, bank, n + 1, &clauses[i], &shown[n])?;
    }
    Ok(())
}

// The covers.
pub fn push_covers(pen: &mut Pen, bank: &Bank, covers: &[Cover]) -> Result<(), Memory>
    requires { All (IsWholeCover bank.now) covers.now }
    ensures { OnOk result (pen.new ≡ pen.old ++ numbered_lines cover_line 1 (map (cover_of bank.now) covers.now)) }
{
    for i in 0..covers.len() {
        push_cover(pen, bank, i + 1, &covers[i])?;
    }
    Ok(())
}

// The steps of the derivation.
pub fn push_steps(pen: &mut Pen, bank: &Bank, steps: &[GroundStep]) -> Result<(), Memory>
    requires { All (λ s. IsWholeClause bank.now s.clause) steps.now }
    ensures { OnOk result (pen.new ≡ pen.old ++ numbered_lines step_line 1 (map (step_of bank.now) steps.now)) }
{
    for i in 0..steps.len() {
        push_step(pen, bank, i + 1, &steps[i])?;
    }
    Ok(())
}
