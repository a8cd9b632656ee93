// The whole text of a certificate over bytes: what every certificate begins with, its base, and the lines of its form.
ghost use Rattle.std.specs.Prelude.{◌≡◌, ◌++◌, OnOk};
ghost use Rattle.cert_format.specs.Certificate.{covered, refutation};
ghost use Rattle.cert_format.specs.Formats.{written_format};
ghost use Rattle.cert_format.specs.Lines.{format_line, selected_line, shown_line};
ghost use Rattle.cert_format.specs.Text.{axiom_lines, head_lines, input_lines, paired_lines, written_text};
ghost use Rattle.cert_values.specs.Values.{base_of, covered_of, refutation_of, saturation_of};
ghost use Rattle.cert_values.specs.Wholes.{IsWholeBase, IsWholeCovered, IsWholeRefutation, IsWholeSaturation};

use crate::lines::{push_constant, push_end, push_format, push_start, push_status};
use crate::listing::{
    push_axioms, push_covers, push_grounds, push_inputs, push_members, push_selected_members,
    push_shown_clauses, push_steps,
};
use crate::pen::Pen;
use cert_values::{Base, Covered, Refutation, Saturation};
use inst_logic::Memory;

// The number of the format in which certificates are written.
const WRITTEN_FORMAT: usize = 3;

// The lines that every certificate begins with.
fn push_head(pen: &mut Pen, status: &[u8], form: &[u8], name: &[u8]) -> Result<(), Memory>
    ensures { OnOk result (pen.new ≡ pen.old ++ (head_lines status.now form.now name.now ++ format_line written_format)) }
{
    push_status(pen, status, name)?;
    push_start(pen, form, name)?;
    push_format(pen, WRITTEN_FORMAT)
}

// The input clauses and the axioms.
fn push_base(pen: &mut Pen, base: &Base) -> Result<(), Memory>
    requires { IsWholeBase base.now }
    ensures { OnOk result (pen.new ≡ pen.old ++ (input_lines (base_of base.now) ++ axiom_lines (base_of base.now))) }
{
    push_inputs(
        pen,
        &base.bank,
        base.inputs.as_slice(),
        base.names.as_slice(),
    )?;
    push_axioms(pen, &base.bank, base.axioms.as_slice())?;
    Ok(())
}

pub fn push_refutation(pen: &mut Pen, name: &[u8], cert: &Refutation) -> Result<(), Memory>
    requires { IsWholeRefutation cert.now }
    ensures { OnOk result (pen.new ≡ pen.old ++ written_text name.now (refutation (refutation_of cert.now))) }
{
    let base = &cert.base;
    push_head(pen, b"Unsatisfiable", b"CNFRefutation", name)?;
    push_constant(pen, cert.bot.name.bytes())?;
    push_base(pen, base)?;
    push_members(pen, &base.bank, base.members.as_slice())?;
    push_grounds(pen, &base.bank, cert.grounds.as_slice())?;
    push_steps(pen, &base.bank, cert.steps.as_slice())?;
    push_end(pen, b"CNFRefutation", name)?;
    Ok(())
}

// The base of a saturation, and its members with the places of their selected literals.
fn push_selection(pen: &mut Pen, cert: &Saturation) -> Result<(), Memory>
    requires { IsWholeSaturation cert.now }
    ensures { OnOk result (pen.new ≡ pen.old ++ (input_lines (base_of cert.now.base) ++ axiom_lines (base_of cert.now.base)
        ++ paired_lines selected_line 1 (base_of cert.now.base).members (saturation_of cert.now).places)) }
{
    let base = &cert.base;
    push_base(pen, base)?;
    push_selected_members(
        pen,
        &base.bank,
        base.members.as_slice(),
        cert.places.as_slice(),
    )?;
    Ok(())
}

// What shows each of the inputs and axioms.
fn push_shown_base(pen: &mut Pen, cert: &Covered) -> Result<(), Memory>
    requires { IsWholeCovered cert.now }
    ensures { OnOk result (pen.new ≡ pen.old ++ paired_lines shown_line 1 ((base_of cert.now.cert.base).inputs ++ (base_of cert.now.cert.base).axioms) (covered_of cert.now).shown) }
{
    let base = &cert.cert.base;
    let inputs = base.inputs.as_slice();
    let axioms = base.axioms.as_slice();
    let shown = cert.shown.as_slice();
    let before = base.inputs.len();
    push_shown_clauses(pen, &base.bank, inputs, shown, 0)?;
    push_shown_clauses(pen, &base.bank, axioms, shown, before)?;
    Ok(())
}

pub fn push_covered(pen: &mut Pen, name: &[u8], cert: &Covered) -> Result<(), Memory>
    requires { IsWholeCovered cert.now }
    ensures { OnOk result (pen.new ≡ pen.old ++ written_text name.now (covered (covered_of cert.now))) }
{
    push_head(pen, b"Satisfiable", b"Saturation", name)?;
    push_selection(pen, &cert.cert)?;
    push_shown_base(pen, cert)?;
    push_covers(pen, &cert.cert.base.bank, cert.covers.as_slice())?;
    push_end(pen, b"Saturation", name)?;
    Ok(())
}
