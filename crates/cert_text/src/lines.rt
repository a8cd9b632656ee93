// The lines of a certificate. Each is a comment or a `cnf` statement of the TPTP language, and what a line says beside its
// clause stands there as an annotation.
ghost use Rattle.std.specs.Prelude.{◌≡◌, ◌++◌, [], ◌∷◌, OnOk, All, decimal, map, codes};
ghost use Rattle.inst_logic.specs.Printing.{joined, name_text, tree_text};
ghost use Rattle.term_bank.specs.Forest.{clause_at, tree_at, IsClauseOf};
ghost use Rattle.cert_format.specs.Lines.{text_line, status_line, start_line, end_line, format_line, input_line, axiom_line, listed, origin_text, member_line, selected_line, ground_line_by, by_text, side_word, shown_line, cover_line, hint_text, step_line};
ghost use Rattle.cert_values.specs.Values.{by_of, cover_of, entry_of, line_of, origin_of, hint_of, side_of, step_of};
ghost use Rattle.cert_values.specs.Wholes.{IsWholeBy, IsWholeCover, IsWholeLine, IsWholeTerm};
ghost use Rattle.cert_text.specs.Pieces.{line_front};

use crate::clauses::push_clause;
use crate::lists::{push_numbers, push_terms};
use crate::pen::Pen;
use cert_values::{By, Cover, GroundHint, GroundLine, GroundStep, Member, Origin};
use inst_logic::{Memory, NumberList, PlaceList};
use term_bank::{Bank, IdClause, TermIdList};
use unify_core::Side;

// A lead, a word, and the name that the certificate speaks of.
fn push_about(pen: &mut Pen, lead: &[u8], word: &[u8], name: &[u8]) -> Result<(), Memory>
    ensures { OnOk result (pen.new ≡ pen.old ++ text_line (lead.now ++ word.now ++ codes " for " ++ name.now)) }
{
    pen.bytes(lead)?;
    pen.bytes(word)?;
    pen.bytes(b" for ")?;
    pen.bytes(name)?;
    pen.bytes(b"\n")
}

// `% SZS status S for NAME`
pub fn push_status(pen: &mut Pen, status: &[u8], name: &[u8]) -> Result<(), Memory>
    ensures { OnOk result (pen.new ≡ pen.old ++ status_line status.now name.now) }
{
    push_about(pen, b"% SZS status ", status, name)
}

// `% SZS output start FORM for NAME`
pub fn push_start(pen: &mut Pen, form: &[u8], name: &[u8]) -> Result<(), Memory>
    ensures { OnOk result (pen.new ≡ pen.old ++ start_line form.now name.now) }
{
    push_about(pen, b"% SZS output start ", form, name)
}

// `% SZS output end FORM for NAME`
pub fn push_end(pen: &mut Pen, form: &[u8], name: &[u8]) -> Result<(), Memory>
    ensures { OnOk result (pen.new ≡ pen.old ++ end_line form.now name.now) }
{
    push_about(pen, b"% SZS output end ", form, name)
}

// `% instgen certificate F`
pub fn push_format(pen: &mut Pen, format: usize) -> Result<(), Memory>
    ensures { OnOk result (pen.new ≡ pen.old ++ format_line format) }
{
    pen.bytes(b"% instgen certificate ")?;
    pen.number(format)?;
    pen.bytes(b"\n")?;
    Ok(())
}

// `% ground constant C`
pub fn push_constant(pen: &mut Pen, name: &[u8]) -> Result<(), Memory>
    ensures { OnOk result (pen.new ≡ pen.old ++ text_line (codes "% ground constant " ++ name_text name.now)) }
{
    pen.bytes(b"% ground constant ")?;
    pen.name(name)?;
    pen.bytes(b"\n")
}

// `cnf(LABEL N,ROLE,CLAUSE,`: what stands before the note of a line.
fn push_front(
    pen: &mut Pen,
    bank: &Bank,
    label: &[u8],
    n: usize,
    role: &[u8],
    clause: &IdClause,
) -> Result<(), Memory>
    requires { IsClauseOf bank.now clause.now }
    ensures { OnOk result (pen.new ≡ pen.old ++ line_front label.now n role.now (clause_at bank.now clause.now)) }
{
    pen.bytes(b"cnf(")?;
    pen.bytes(label)?;
    pen.number(n)?;
    pen.bytes(b",")?;
    pen.bytes(role)?;
    pen.bytes(b",")?;
    push_clause(pen, bank, clause)?;
    pen.bytes(b",")?;
    Ok(())
}

// `named(W)`
fn push_named(pen: &mut Pen, name: &[u8]) -> Result<(), Memory>
    ensures { OnOk result (pen.new ≡ pen.old ++ (codes "named(" ++ name_text name.now ++ codes ")")) }
{
    pen.bytes(b"named(")?;
    pen.name(name)?;
    pen.bytes(b")")
}

// The line of input clause `n`, with the name of its statement.
pub fn push_input(
    pen: &mut Pen,
    bank: &Bank,
    n: usize,
    clause: &IdClause,
    name: &[u8],
) -> Result<(), Memory>
    requires { IsClauseOf bank.now clause.now }
    ensures { OnOk result (pen.new ≡ pen.old ++ input_line n (clause_at bank.now clause.now) name.now) }
{
    push_front(pen, bank, b"i", n, b"axiom", clause)?;
    push_named(pen, name)?;
    pen.bytes(b").\n")?;
    Ok(())
}

// The line of axiom `n`.
pub fn push_axiom(pen: &mut Pen, bank: &Bank, n: usize, clause: &IdClause) -> Result<(), Memory>
    requires { IsClauseOf bank.now clause.now }
    ensures { OnOk result (pen.new ≡ pen.old ++ axiom_line n (clause_at bank.now clause.now)) }
{
    push_front(pen, bank, b"e", n, b"axiom", clause)?;
    pen.bytes(b"equality")?;
    pen.bytes(b").\n")?;
    Ok(())
}

// `input(K)`
fn push_given(pen: &mut Pen, k: usize) -> Result<(), Memory>
    ensures { OnOk result (pen.new ≡ pen.old ++ (codes "input(" ++ decimal k ++ codes ")")) }
{
    pen.bytes(b"input(")?;
    pen.number(k)?;
    pen.bytes(b")")
}

// `mA,P`: a member's number and the place of one of its literals.
fn push_premise(pen: &mut Pen, member: usize, place: usize) -> Result<(), Memory>
    ensures { OnOk result (pen.new ≡ pen.old ++ (codes "m" ++ decimal member ++ codes "," ++ decimal place)) }
{
    pen.bytes(b"m")?;
    pen.number(member)?;
    pen.bytes(b",")?;
    pen.number(place)
}

// `mA,P,mB,Q`: the premises of a conclusion, each with the place of its literal.
fn push_premises(
    pen: &mut Pen,
    from: usize,
    place: usize,
    partner: usize,
    other: usize,
) -> Result<(), Memory>
    ensures { OnOk result (pen.new ≡ pen.old ++ (codes "m" ++ decimal from ++ codes "," ++ decimal place ++ codes ",m" ++ decimal partner ++ codes "," ++ decimal other)) }
{
    push_premise(pen, from, place)?;
    pen.bytes(b",")?;
    push_premise(pen, partner, other)?;
    Ok(())
}

// `,[L,..],[mD,..]`: what is kept of a conclusion, and the members that imply it.
fn push_kept(pen: &mut Pen, keep: &PlaceList, premises: &NumberList) -> Result<(), Memory>
    ensures { OnOk result (pen.new ≡ pen.old ++ (codes "," ++ listed [] (map decimal keep.now) ++ codes "," ++ listed (codes "m") (map decimal premises.now))) }
{
    pen.bytes(b",")?;
    push_numbers(pen, b"", keep.as_slice())?;
    pen.bytes(b",")?;
    push_numbers(pen, b"m", premises.as_slice())?;
    Ok(())
}

// `input(K)`, `inst(mA,P,mB,Q)`, or `lemma(mA,P,mB,Q,[L,..],[mD,..])`.
fn push_origin(pen: &mut Pen, origin: &Origin) -> Result<(), Memory>
    ensures { OnOk result (pen.new ≡ pen.old ++ origin_text (origin_of origin.now)) }
{
    match origin {
        Origin::Input(k) => push_given(pen, *k),
        Origin::Inst {
            from,
            place,
            partner,
            other,
        } => {
            pen.bytes(b"inst(")?;
            push_premises(pen, *from, *place, *partner, *other)?;
            pen.bytes(b")")
        }
        Origin::Lemma {
            from,
            place,
            partner,
            other,
            keep,
            premises,
        } => {
            pen.bytes(b"lemma(")?;
            push_premises(pen, *from, *place, *partner, *other)?;
            push_kept(pen, keep, premises)?;
            pen.bytes(b")")
        }
    }
}

// The line of member `n`.
pub fn push_member(pen: &mut Pen, bank: &Bank, n: usize, member: &Member) -> Result<(), Memory>
    requires { IsClauseOf bank.now member.now.clause }
    ensures { OnOk result (pen.new ≡ pen.old ++ member_line n (entry_of bank.now member.now)) }
{
    push_front(pen, bank, b"m", n, b"plain", &member.clause)?;
    push_origin(pen, &member.origin)?;
    pen.bytes(b").\n")?;
    Ok(())
}

// `,[selected(P)]`
fn push_place(pen: &mut Pen, place: usize) -> Result<(), Memory>
    ensures { OnOk result (pen.new ≡ pen.old ++ (codes ",[selected(" ++ decimal place ++ codes ")]")) }
{
    pen.bytes(b",[selected(")?;
    pen.number(place)?;
    pen.bytes(b")]")?;
    Ok(())
}

// A member's line that ends with the place of its selected literal.
pub fn push_selected(
    pen: &mut Pen,
    bank: &Bank,
    n: usize,
    member: &Member,
    place: usize,
) -> Result<(), Memory>
    requires { IsClauseOf bank.now member.now.clause }
    ensures { OnOk result (pen.new ≡ pen.old ++ selected_line n (entry_of bank.now member.now) place) }
{
    push_front(pen, bank, b"m", n, b"plain", &member.clause)?;
    push_origin(pen, &member.origin)?;
    push_place(pen, place)?;
    pen.bytes(b").\n")?;
    Ok(())
}

// `ground(K,[T,..])`
fn push_instance(pen: &mut Pen, bank: &Bank, input: usize, terms: &TermIdList) -> Result<(), Memory>
    requires { All (IsWholeTerm bank.now) terms.now }
    ensures { OnOk result (pen.new ≡ pen.old ++ (codes "ground(" ++ decimal input ++ codes "," ++ listed [] (map tree_text (map (tree_at bank.now) terms.now)) ++ codes ")")) }
{
    pen.bytes(b"ground(")?;
    pen.number(input)?;
    pen.bytes(b",")?;
    push_terms(pen, bank, terms.as_slice())?;
    pen.bytes(b")")?;
    Ok(())
}

// The line of ground clause `n`.
pub fn push_ground(pen: &mut Pen, bank: &Bank, n: usize, line: &GroundLine) -> Result<(), Memory>
    requires { IsWholeLine bank.now line.now }
    ensures { OnOk result (pen.new ≡ pen.old ++ ground_line_by n (line_of bank.now line.now)) }
{
    push_front(pen, bank, b"g", n, b"plain", &line.clause)?;
    push_instance(pen, bank, line.input, &line.terms)?;
    pen.bytes(b").\n")?;
    Ok(())
}

// `variant(mJ)`
fn push_variant(pen: &mut Pen, member: usize) -> Result<(), Memory>
    ensures { OnOk result (pen.new ≡ pen.old ++ (codes "variant(m" ++ decimal member ++ codes ")")) }
{
    pen.bytes(b"variant(m")?;
    pen.number(member)?;
    pen.bytes(b")")
}

// `part(mJ,[T,..])`
fn push_part(pen: &mut Pen, bank: &Bank, member: usize, terms: &TermIdList) -> Result<(), Memory>
    requires { All (IsWholeTerm bank.now) terms.now }
    ensures { OnOk result (pen.new ≡ pen.old ++ (codes "part(m" ++ decimal member ++ codes "," ++ listed [] (map tree_text (map (tree_at bank.now) terms.now)) ++ codes ")")) }
{
    pen.bytes(b"part(m")?;
    pen.number(member)?;
    pen.bytes(b",")?;
    push_terms(pen, bank, terms.as_slice())?;
    pen.bytes(b")")?;
    Ok(())
}

// What covers a clause.
fn push_by(pen: &mut Pen, bank: &Bank, by: &By) -> Result<(), Memory>
    requires { IsWholeBy bank.now by.now }
    ensures { OnOk result (pen.new ≡ pen.old ++ by_text (by_of bank.now by.now)) }
{
    match by {
        By::Tautology => pen.bytes(b"tautology"),
        By::Variant(member) => push_variant(pen, *member),
        By::Part { member, terms } => push_part(pen, bank, *member, terms),
    }
}

// The line of what shows clause `n` of the inputs and axioms.
pub fn push_shown(
    pen: &mut Pen,
    bank: &Bank,
    n: usize,
    clause: &IdClause,
    by: &By,
) -> Result<(), Memory>
    requires clause { IsClauseOf bank.now clause.now }
    requires by { IsWholeBy bank.now by.now }
    ensures { OnOk result (pen.new ≡ pen.old ++ shown_line n (clause_at bank.now clause.now) (by_of bank.now by.now)) }
{
    push_front(pen, bank, b"q", n, b"plain", clause)?;
    push_by(pen, bank, by)?;
    pen.bytes(b").\n")?;
    Ok(())
}

fn push_side(pen: &mut Pen, side: Side) -> Result<(), Memory>
    ensures { OnOk result (pen.new ≡ pen.old ++ side_word (side_of side)) }
{
    match side {
        Side::Left => pen.bytes(b"left"),
        Side::Right => pen.bytes(b"right"),
    }
}

// `cover(mL,mR,SIDE),[`
fn push_due(pen: &mut Pen, left: usize, right: usize, side: Side) -> Result<(), Memory>
    ensures { OnOk result (pen.new ≡ pen.old ++ (codes "cover(m" ++ decimal left ++ codes ",m" ++ decimal right ++ codes "," ++ side_word (side_of side) ++ codes "),[")) }
{
    pen.bytes(b"cover(m")?;
    pen.number(left)?;
    pen.bytes(b",m")?;
    pen.number(right)?;
    pen.bytes(b",")?;
    push_side(pen, side)?;
    pen.bytes(b"),[")?;
    Ok(())
}

// `cover(mL,mR,SIDE),[BY]`
fn push_cover_note(pen: &mut Pen, bank: &Bank, cover: &Cover) -> Result<(), Memory>
    requires { IsWholeBy bank.now cover.now.by }
    ensures { OnOk result (pen.new ≡ pen.old ++ (codes "cover(m" ++ decimal cover.now.left ++ codes ",m" ++ decimal cover.now.right ++ codes "," ++ side_word (side_of cover.now.side) ++ codes "),[" ++ by_text (by_of bank.now cover.now.by) ++ codes "]")) }
{
    push_due(pen, cover.left, cover.right, cover.side)?;
    push_by(pen, bank, &cover.by)?;
    pen.bytes(b"]")?;
    Ok(())
}

// The line of cover `n`.
pub fn push_cover(pen: &mut Pen, bank: &Bank, n: usize, cover: &Cover) -> Result<(), Memory>
    requires { IsWholeCover bank.now cover.now }
    ensures { OnOk result (pen.new ≡ pen.old ++ cover_line n (cover_of bank.now cover.now)) }
{
    push_front(pen, bank, b"c", n, b"plain", &cover.clause)?;
    push_cover_note(pen, bank, cover)?;
    pen.bytes(b").\n")?;
    Ok(())
}

// `gK` or `rK`
fn push_hint(pen: &mut Pen, hint: GroundHint) -> Result<(), Memory>
    ensures { OnOk result (pen.new ≡ pen.old ++ hint_text (hint_of hint)) }
{
    match hint {
        GroundHint::Ground(n) => {
            pen.bytes(b"g")?;
            pen.number(n)
        }
        GroundHint::Step(n) => {
            pen.bytes(b"r")?;
            pen.number(n)
        }
    }
}

// What follows a hint: each more behind a comma.
#[tactic(auto, using(std::proofs::lemmas::Grind::common_steps, crate::proofs::Pieces::joined_first))]
fn push_following_hints(pen: &mut Pen, rest: &[GroundHint]) -> Result<(), Memory>
    ensures { OnOk result (pen.new ≡ pen.old ++ joined (codes ",") ([] ∷ map hint_text (map hint_of rest.now))) }
{
    for hint in rest {
        pen.bytes(b",")?;
        push_hint(pen, *hint)?;
    }
    Ok(())
}

// The hints with commas between them.
#[tactic(auto, using(std::proofs::lemmas::Grind::common_steps, crate::proofs::Pieces::joined_first))]
fn push_hints(pen: &mut Pen, hints: &[GroundHint]) -> Result<(), Memory>
    ensures { OnOk result (pen.new ≡ pen.old ++ joined (codes ",") (map hint_text (map hint_of hints.now))) }
{
    match hints {
        [] => Ok(()),
        [first, rest @ ..] => {
            push_hint(pen, *first)?;
            push_following_hints(pen, rest)
        }
    }
}

// `rup([H,..])`
fn push_rup(pen: &mut Pen, hints: &[GroundHint]) -> Result<(), Memory>
    ensures { OnOk result (pen.new ≡ pen.old ++ (codes "rup([" ++ joined (codes ",") (map hint_text (map hint_of hints.now)) ++ codes "])")) }
{
    pen.bytes(b"rup([")?;
    push_hints(pen, hints)?;
    pen.bytes(b"])")
}

// The line of step `n`.
pub fn push_step(pen: &mut Pen, bank: &Bank, n: usize, step: &GroundStep) -> Result<(), Memory>
    requires { IsClauseOf bank.now step.now.clause }
    ensures { OnOk result (pen.new ≡ pen.old ++ step_line n (step_of bank.now step.now)) }
{
    push_front(pen, bank, b"r", n, b"plain", &step.clause)?;
    push_rup(pen, step.hints.as_slice())?;
    pen.bytes(b").\n")?;
    Ok(())
}
