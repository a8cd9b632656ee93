// What a saturation says of a ground atom.
ghost use Rattle.std.specs.Prelude.{◌≡◌, ◌↔◌, true, IfOk, IsTrue};
ghost use Rattle.inst_logic.specs.LiteralView.{literal};
ghost use Rattle.inst_logic.specs.WellFormed.{IsAtom};
ghost use Rattle.inst_calculus.specs.Models.{IsTrueBy};
ghost use Rattle.cert_format.specs.Validity.{IsValid};
ghost use Rattle.term_bank.specs.Forest.{is_ground};
ghost use Rattle.cert_values.specs.Wholes.{AreLight};
ghost use Rattle.cert_front.specs.Kinds.{selected_of};
ghost use Rattle.cert_front.specs.Replies.{IsReply};

use crate::kind::Kind;
use cert_check::{CheckError, CheckedCovered, CheckedSaturation, Complaint};
use cert_values::{Covered, Saturation};
use inst_logic::{Literal, Memory};
use saturation_cert::truth;
use std::alloc::Global;

/// What a saturation says of a ground atom.
#[derive(Clone, Copy, Debug, PartialEq, Eq)]
pub enum Reply {
    /// The saturation is valid, and the atom is true by its members.
    True,
    /// The saturation is valid, and the atom is not true by its members.
    False,
    /// The saturation is not valid, and this is the first complaint.
    Invalid(Complaint),
}

// A kind of certificates that say what is true.
pub(crate) trait Truthful: Kind {
    /// Whether the atom is true by the members of the checked certificate, which is valid.
    fn truth(alloc: Global, checked: &mut Self::Checked, atom: &Literal) -> Result<bool, Memory>
        requires light { AreLight (selected_of (Self.checked_value checked.old)) }
        requires atom { IsAtom (literal atom.now).atom }
        requires variable_free { is_ground (literal atom.now).atom ≡ true }
        ensures valid { IfOk result (λ _. IsValid (Self.checked_value checked.old)) }
        ensures truth { IfOk result (λ r. IsTrue r ↔ IsTrueBy (selected_of (Self.checked_value checked.old)) (literal atom.now).atom) };
}

impl Truthful for Saturation {
    fn truth(
        alloc: Global,
        checked: &mut CheckedSaturation,
        atom: &Literal,
    ) -> Result<bool, Memory> {
        let id = checked.atom(atom)?;
        truth(alloc, checked.cert(), id)
    }
}

impl Truthful for Covered {
    fn truth(alloc: Global, checked: &mut CheckedCovered, atom: &Literal) -> Result<bool, Memory> {
        let id = checked.atom(atom)?;
        truth(alloc, &checked.cert().cert, id)
    }
}

// What the checked certificate says of the ground atom.
fn reply_by<C: Truthful>(
    alloc: Global,
    checked: &mut C::Checked,
    atom: &Literal,
) -> Result<Reply, Memory>
    requires light { AreLight (selected_of (C.checked_value checked.old)) }
    requires atom { IsAtom (literal atom.now).atom }
    requires variable_free { is_ground (literal atom.now).atom ≡ true }
    ensures { IfOk result (IsReply (C.checked_value checked.old) (literal atom.now).atom) }
{
    match C::truth(alloc, checked, atom) {
        Ok(true) => Ok(Reply::True),
        Ok(false) => Ok(Reply::False),
        Err(Memory) => Err(Memory),
    }
}

// The reply of a certificate that is dropped then.
fn reply_of<C: Truthful>(
    alloc: Global,
    checked: C::Checked,
    atom: &Literal,
) -> Result<Reply, Memory>
    requires light { AreLight (selected_of (C.checked_value checked)) }
    requires atom { IsAtom (literal atom.now).atom }
    requires variable_free { is_ground (literal atom.now).atom ≡ true }
    ensures { IfOk result (IsReply (C.checked_value checked) (literal atom.now).atom) }
{
    let mut checked = checked;
    reply_by::<C>(alloc, &mut checked, atom)
}

// What the certificate says of the ground atom, once it is checked.
pub(crate) fn ask<C: Truthful>(alloc: Global, cert: C, atom: &Literal) -> Result<Reply, Memory>
    requires whole { C.whole cert }
    requires light { AreLight (selected_of (C.value cert)) }
    requires atom { IsAtom (literal atom.now).atom }
    requires variable_free { is_ground (literal atom.now).atom ≡ true }
    ensures { IfOk result (IsReply (C.value cert) (literal atom.now).atom) }
{
    match cert.check(alloc) {
        Ok(checked) => reply_of::<C>(alloc, checked, atom),
        Err(CheckError::Complaint(complaint)) => Ok(Reply::Invalid(complaint)),
        Err(CheckError::Memory) => Err(Memory),
    }
}
