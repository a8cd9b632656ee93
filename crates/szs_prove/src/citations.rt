// Which of its input clauses a refutation cites.
ghost use Rattle.std.specs.Prelude.{◌≡◌, length, IfOk};

use cert_values::{GroundHint, GroundLine, Refutation};
use inst_logic::{ListOf, Memory};
use std::alloc::Global;

fn mark(marks: &mut [bool], number: usize)
    ensures { length marks.new ≡ length marks.old }
{
    if 0 < number && number <= marks.len() {
        marks[number - 1] = true;
    }
}

// Marks the clause that the ground line of this number is an instance of.
fn mark_line(marks: &mut [bool], lines: &[GroundLine], number: usize)
    ensures { length marks.new ≡ length marks.old }
{
    if 0 < number && number <= lines.len() {
        mark(marks, lines[number - 1].input);
    }
}

fn mark_hint(marks: &mut [bool], lines: &[GroundLine], hint: GroundHint)
    ensures { length marks.new ≡ length marks.old }
{
    match hint {
        GroundHint::Ground(number) => mark_line(marks, lines, number),
        GroundHint::Step(_) => {}
    }
}

fn mark_hints(marks: &mut [bool], lines: &[GroundLine], hints: &[GroundHint])
    ensures { length marks.new ≡ length marks.old }
{
    for hint in hints {
        mark_hint(marks, lines, *hint);
    }
}

/// For each of so many clauses whether a step of the refutation cites an instance of it. Numbers above are those of axioms.
pub fn cited_by(alloc: Global, cert: &Refutation, count: usize) -> Result<ListOf<bool>, Memory>
    ensures { IfOk result (λ marks. length marks ≡ count) }
{
    let mut marks = vec![in alloc; false; count]?;
    let lines = cert.grounds.as_slice();
    for step in cert.steps.as_slice() {
        mark_hints(marks.as_mut_slice(), lines, step.hints.as_slice());
    }
    Ok(ListOf::from(marks))
}
