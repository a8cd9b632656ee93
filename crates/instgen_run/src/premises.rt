// The premises of a conclusion: two entries with a literal of each.
ghost use Rattle.std.specs.Prelude.{◌≡◌, IfOk};
ghost use Rattle.cert_values.specs.declared.member.Origin.TheVariants.{Inst};
ghost use Rattle.cert_values.specs.declared.member.Origin.TheVariants as origins;

use crate::small::small;
use cert_values::Origin;
use global_subs::Lemma;
use inst_logic::Memory;

/// Entry `from` at its literal `place`, of which the conclusion is an instance, and entry `partner` at its literal `other`. All
/// numbers count from 1.
#[derive(Clone, Copy, Debug, PartialEq, Eq)]
pub struct Premises {
    pub from: u32,
    pub place: u32,
    pub partner: u32,
    pub other: u32,
}

impl Premises {
    /// It lacks memory where a number needs more than four bytes.
    pub fn new(from: usize, place: usize, partner: usize, other: usize) -> Result<Premises, Memory>
        ensures { IfOk result (λ at. at ≡ record { from = from; place = place; partner = partner; other = other }) }
    {
        Ok(Premises {
            from: small(from)?,
            place: small(place)?,
            partner: small(partner)?,
            other: small(other)?,
        })
    }

    /// The origin of their conclusion.
    pub fn origin(self) -> Origin
        ensures { result ≡ Inst self.from self.place self.partner self.other }
    {
        Origin::Inst {
            from: self.from as usize,
            place: self.place as usize,
            partner: self.partner as usize,
            other: self.other as usize,
        }
    }

    /// The origin of this part of their conclusion.
    pub fn lemma_origin(self, lemma: Lemma) -> Origin
        ensures { result ≡ origins.Lemma self.from self.place self.partner self.other lemma.keep lemma.premises }
    {
        Origin::Lemma {
            from: self.from as usize,
            place: self.place as usize,
            partner: self.partner as usize,
            other: self.other as usize,
            keep: lemma.keep,
            premises: lemma.premises,
        }
    }
}
