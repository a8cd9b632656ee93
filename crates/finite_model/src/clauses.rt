// The flat form of one clause: first its literals with variables for their arguments, in one walk that notes the parts, and then
// the denials that the notes give, which stand before them.
ghost use Rattle.std.specs.Prelude.{◌≡◌, ◌<◌, ◌∷◌, ◌++◌, [], length, map, slice_index_or, IfOk, OnOk};
ghost use Rattle.inst_logic.specs.Tree.{var};
ghost use Rattle.inst_logic.specs.LiteralView.{literal};
ghost use Rattle.inst_logic.specs.View.{tree};
ghost use Rattle.finite_model.specs.Flattening.{flat_clause};
ghost use Rattle.finite_model.specs.Placing.{placed_atom, placed_clause, placed_flat, placed_literals, note_denial, note_denials};

use crate::numbering::Numbering;
use crate::places::place_list;
use indexmap::IndexSet;
use inst_logic::{Clause, Literal, Memory, Term};
use std::alloc::Global;

// Adds the literal with variables for its arguments.
fn add_literal(
    alloc: Global,
    numbering: &Numbering,
    notes: &mut IndexSet<Term>,
    own: &mut Clause,
    l: &Literal,
) -> Result<(), Memory>
    ensures notes { OnOk result (map tree notes.new.keys ≡ placed_atom (map tree notes.old.keys) (literal l.now).atom) }
    ensures own { OnOk result (own.new ≡ own.old ++ record { positive = l.now.positive; atom = placed_flat numbering.now (map tree notes.old.keys) (literal l.now).atom } ∷ []) }
{
    let args = place_list(alloc, notes, &l.args)?;
    let sym = numbering.of_relation(alloc, &l.sym)?;
    own.push(Literal {
        positive: l.positive,
        sym,
        args,
    })?;
    Ok(())
}

// The literals with variables for their arguments.
#[tactic(auto, using(std::proofs::lemmas::Grind::common_steps, crate::proofs::Walking::noted_one_more, crate::proofs::Walking::flat_one_more))]
fn own_literals(
    alloc: Global,
    numbering: &Numbering,
    notes: &mut IndexSet<Term>,
    c: &Clause,
) -> Result<Clause, Memory>
    ensures notes { OnOk result (map tree notes.new.keys ≡ placed_clause (map tree notes.old.keys) c.now) }
    ensures own { IfOk result (λ own. own ≡ placed_literals numbering.now (map tree notes.old.keys) c.now) }
{
    let mut own = Clause::new(alloc);
    for l in c.as_slice() {
        add_literal(alloc, numbering, notes, &mut own, l)?;
    }
    Ok(own)
}

// Adds what the note at the place denies: nothing for a variable.
#[tactic(auto, using(std::proofs::lemmas::Grind::common_steps, inst_logic::proofs::Applications::same_list))]
fn add_denial(
    alloc: Global,
    numbering: &Numbering,
    denials: &mut Clause,
    place: usize,
    note: &Term,
) -> Result<(), Memory>
    ensures { OnOk result (denials.new ≡ denials.old ++ note_denial numbering.now place (tree note.now)) }
{
    match note {
        Term::Var(_) => {}
        Term::App(f, names) => {
            let mut args = names.clone()?;
            args.push(Term::Var(place))?;
            let sym = numbering.of_function(alloc, f)?;
            denials.push(Literal {
                positive: false,
                sym,
                args,
            })?;
        }
    }
    Ok(())
}

// Adds what the note at this place denies.
fn add_denial_at(
    alloc: Global,
    numbering: &Numbering,
    denials: &mut Clause,
    notes: &IndexSet<Term>,
    place: usize,
) -> Result<(), Memory>
    requires { place < length notes.now.keys }
    ensures { OnOk result (denials.new ≡ denials.old ++ note_denial numbering.now place (slice_index_or (map tree notes.now.keys) place (var 0))) }
{
    match notes.get_index(place) {
        Some(note) => add_denial(alloc, numbering, denials, place, note),
        None => unreachable!(),
    }
}

#[tactic(auto, using(std::proofs::lemmas::Grind::common_steps, crate::proofs::Walking::denied_one_more))]
fn denials_of(
    alloc: Global,
    numbering: &Numbering,
    notes: &IndexSet<Term>,
) -> Result<Clause, Memory>
    ensures { IfOk result (λ c. c ≡ note_denials numbering.now 0 (map tree notes.now.keys)) }
{
    let mut denials = Clause::new(alloc);
    for place in 0..notes.len() {
        add_denial_at(alloc, numbering, &mut denials, notes, place)?;
    }
    Ok(denials)
}

// The literals of the first clause, and then those of the second one.
fn concatenation(first: Clause, second: Clause) -> Result<Clause, Memory>
    ensures { IfOk result (λ c. c ≡ first ++ second) }
{
    let mut literals: Vec<Literal> = first.into();
    let mut more: Vec<Literal> = second.into();
    literals.append(&mut more)?;
    Ok(Clause::from(literals))
}

/// The flat form of the clause, before its variables are numbered.
#[tactic(auto, using(std::proofs::lemmas::Grind::common_steps, crate::proofs::Notes::walked_is_flat))]
pub(crate) fn flat_clause(
    alloc: Global,
    numbering: &Numbering,
    c: &Clause,
) -> Result<Clause, Memory>
    ensures { IfOk result (λ d. d ≡ flat_clause numbering.now c.now) }
{
    let mut notes = IndexSet::new(alloc);
    let own = own_literals(alloc, numbering, &mut notes, c)?;
    let denials = denials_of(alloc, numbering, &notes)?;
    concatenation(denials, own)
}
