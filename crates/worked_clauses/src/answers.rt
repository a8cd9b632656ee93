// What the checker and the truth test answer for the certificates of texts. A function owns at most one bank, makes it last and
// has few ways out from then on, since a proof pays at each of them for what is owned.
ghost use Rattle.std.specs.Prelude.{◌≡◌, []};
ghost use Rattle.cert_format.specs.Certificate.{selected_members};
ghost use Rattle.cert_values.specs.Values.{saturation_of};
ghost use Rattle.cert_values.specs.Wholes.{AreLight, HasPlaces, IsGroundAtom, IsWholeFirst, IsWholeSaturation};

use crate::building::{Worked, base_lists, refutation_lists};
use cert_check::{CheckError, CheckedSaturation, Complaint, check_first, check_saturation};
use cert_values::{Base, FirstRefutation, Saturation};
use inst_logic::{Kind, Memory, Name, NameList, PlaceList, Sym};
use saturation_cert::{is_light, store_selected, truth, truth_in};
use std::alloc::Global;
use std::test::Fail;
use term_bank::{Bank, TermId};
use term_index::{PartnerIndex, Rows};
use tptp_read::read_atom;

fn complaint_in(e: CheckError) -> Result<Option<Complaint>, Fail> {
    match e {
        CheckError::Complaint(complaint) => Ok(Some(complaint)),
        CheckError::Memory => Err(Fail::from(Memory)),
    }
}

pub fn complaint_of(alloc: Global, cert: Saturation) -> Result<Option<Complaint>, Fail>
    requires { IsWholeSaturation cert }
{
    match check_saturation(alloc, cert) {
        Ok(_) => Ok(None),
        Err(e) => complaint_in(e),
    }
}

// The first complaint about the saturation of these texts with a place for each member, if there is one.
pub fn saturation_complaint(
    alloc: Global,
    worked: &Worked,
    places: &[usize],
) -> Result<Option<Complaint>, Fail> {
    let places = PlaceList::from(places.to_vec(alloc)?);
    let names = NameList::new(alloc);
    let mut bank = Bank::new(alloc);
    match base_lists(alloc, &mut bank, worked) {
        Ok(lists) => {
            let base = Base {
                bank,
                inputs: lists.inputs,
                names,
                axioms: lists.axioms,
                members: lists.members,
            };
            complaint_of(alloc, Saturation { base, places })
        }
        Err(e) => Err(e),
    }
}

fn refusal_of(alloc: Global, cert: FirstRefutation) -> Result<Option<Complaint>, Fail>
    requires { IsWholeFirst cert }
{
    match check_first(alloc, cert) {
        Ok(_) => Ok(None),
        Err(e) => complaint_in(e),
    }
}

// The first complaint about the refutation of these texts with the function `bot_0` of this many arguments.
pub fn refutation_complaint(
    alloc: Global,
    worked: &Worked,
    arity: usize,
) -> Result<Option<Complaint>, Fail> {
    let bot = Sym {
        name: Name::of(alloc, b"bot_0")?,
        kind: Kind::Function,
        arity,
    };
    let names = NameList::new(alloc);
    let mut bank = Bank::new(alloc);
    match refutation_lists(alloc, &mut bank, worked) {
        Ok(lists) => {
            let base = Base {
                bank,
                inputs: lists.base.inputs,
                names,
                axioms: lists.base.axioms,
                members: lists.base.members,
            };
            let grounds = lists.proof.grounds;
            let steps = lists.proof.steps;
            let cert = FirstRefutation {
                base,
                bot,
                grounds,
                steps,
            };
            refusal_of(alloc, cert)
        }
        Err(e) => Err(e),
    }
}

// The truth test over indexes to fill.
fn truth_by<I: PartnerIndex>(
    alloc: Global,
    cert: &Saturation,
    positive: &mut I,
    negative: &mut I,
    atom: TermId,
) -> Result<bool, Memory>
    requires whole { IsWholeSaturation cert.now }
    requires placed { HasPlaces (saturation_of cert.now) }
    requires light { AreLight (selected_members (saturation_of cert.now)) }
    requires atom { IsGroundAtom cert.now.base.bank atom }
    requires positive { I.pairs positive.old ≡ [] }
    requires negative { I.pairs negative.old ≡ [] }
{
    store_selected(cert, positive, negative)?;
    truth_in(alloc, cert, positive, negative, atom)
}

fn truth_by_rows(alloc: Global, cert: &Saturation, atom: TermId) -> Result<bool, Memory>
    requires whole { IsWholeSaturation cert.now }
    requires placed { HasPlaces (saturation_of cert.now) }
    requires light { AreLight (selected_members (saturation_of cert.now)) }
    requires atom { IsGroundAtom cert.now.base.bank atom }
{
    let mut positive = Rows::new(alloc);
    let mut negative = Rows::new(alloc);
    truth_by(alloc, cert, &mut positive, &mut negative, atom)
}

// Whether the ground atom of this text is true by the saturation: by the trees that the truth test fills, and by lists in their
// place. None where a weight passes what the bank tells.
fn truths_of(
    alloc: Global,
    checked: &mut CheckedSaturation,
    text: &str,
) -> Result<Option<[bool; 2]>, Fail> {
    let l = read_atom(alloc, text.as_bytes())?;
    let atom = checked.atom(&l)?;
    let cert = checked.cert();
    if !cert.base.bank.ground(atom) {
        return Ok(None);
    }
    if !is_light(cert) {
        return Ok(None);
    }
    let by_trees = truth(alloc, cert, atom)?;
    let by_rows = truth_by_rows(alloc, cert, atom)?;
    Ok(Some([by_trees, by_rows]))
}

fn truths_by(alloc: Global, cert: Saturation, text: &str) -> Result<Option<[bool; 2]>, Fail>
    requires { IsWholeSaturation cert }
{
    match check_saturation(alloc, cert) {
        Ok(checked) => {
            let mut checked = checked;
            truths_of(alloc, &mut checked, text)
        }
        Err(_) => Ok(None),
    }
}

// Whether the ground atom of the last text is true by the saturation of these texts with a place for each member: by trees, and by
// lists.
pub fn truths(
    alloc: Global,
    worked: &Worked,
    places: &[usize],
    text: &str,
) -> Result<Option<[bool; 2]>, Fail> {
    let places = PlaceList::from(places.to_vec(alloc)?);
    let names = NameList::new(alloc);
    let mut bank = Bank::new(alloc);
    match base_lists(alloc, &mut bank, worked) {
        Ok(lists) => {
            let base = Base {
                bank,
                inputs: lists.inputs,
                names,
                axioms: lists.axioms,
                members: lists.members,
            };
            truths_by(alloc, Saturation { base, places }, text)
        }
        Err(e) => Err(e),
    }
}
