// Look-ups of members, made once for the check of inputs and pairs. The clauses are copies, since the certificate's bank grows
// while they are looked up.
ghost use Rattle.std.specs.Prelude.{◌≡◌, IfOk};
ghost use Rattle.std.specs.Cmp.Lexicographic.{pointwise};
ghost use Rattle.indexmap.specs.IndexMap.{get};
ghost use Rattle.clause_form.specs.Literals.{id_eq};
ghost use Rattle.cert_values.specs.Values.{base_of, saturation_of};
ghost use Rattle.cert_values.specs.Wholes.{HasPlaces, IsWholeSaturation};
ghost use Rattle.cert_format.specs.Validity.{IsValidBase};
ghost use Rattle.cert_index.specs.Lookups.{AreClausesOf, IsReady};

use crate::fingerprint::{Fingerprint, find_fingerprints};
use crate::lengths::{Lengths, find_lengths};
use crate::meetings::{Meetings, find_meetings};
use crate::partners::find_heads;
use cert_values::{Member, Saturation};
use indexmap::IndexMap;
use inst_logic::Memory;
use std::alloc::Global;
use term_bank::IdClause;

/// The places of the members' clauses, the chains through the members whose selected literals have one head, from the shortest on,
/// the fingerprints of the selected atoms, and which members may meet.
#[derive(Drop)]
pub struct Lookup {
    pub(crate) lengths: Lengths,
    pub meetings: Meetings,
    pub(crate) fingerprints: Vec<Fingerprint>,
    clauses: IndexMap<IdClause, usize>,
}

pub fn clause_copy(alloc: Global, c: &IdClause) -> Result<IdClause, Memory>
    ensures { IfOk result (λ d. d ≡ c.now) }
{
    Ok(IdClause::from(Vec::from_slice(alloc, c.as_slice())?))
}

// For each clause of a member its place, counted from 0; the last one of those with one clause.
fn clauses_of(alloc: Global, members: &[Member]) -> Result<IndexMap<IdClause, usize>, Memory>
    ensures { IfOk result (λ s. AreClausesOf members.now (get (pointwise id_eq) s)) }
{
    let mut clauses: IndexMap<IdClause, usize> = IndexMap::new(alloc);
    for i in 0..members.len() {
        let clause = clause_copy(alloc, &members[i].clause)?;
        clauses.insert(clause, i)?;
    }
    Ok(clauses)
}

// The look-ups of a certificate whose members are valid and have a literal at each place.
pub fn find_lookup(alloc: Global, cert: &Saturation) -> Result<Lookup, Memory>
    requires whole { IsWholeSaturation cert.now }
    requires base { IsValidBase (base_of cert.now.base) }
    requires placed { HasPlaces (saturation_of cert.now) }
    ensures { IfOk result (IsReady cert.now) }
{
    let fingerprints = find_fingerprints(alloc, cert)?;
    let heads = find_heads(alloc, cert)?;
    let meetings = find_meetings(alloc, &heads, &fingerprints)?;
    let members = cert.base.members.as_slice();
    let lengths = find_lengths(alloc, members, &heads)?;
    let clauses = clauses_of(alloc, members)?;
    Ok(Lookup {
        lengths,
        meetings,
        fingerprints,
        clauses,
    })
}

impl Lookup {
    /// The place of a member with the clause, counted from 0.
    pub fn place_of(&self, c: &IdClause) -> Option<usize>
        ensures { result ≡ get (pointwise id_eq) self.now.clauses c.now }
    {
        self.clauses.get(c).copied()
    }
}
