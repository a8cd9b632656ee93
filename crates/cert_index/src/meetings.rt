// Which members may meet. Members are put into buckets by the heads and the fingerprints of their selected literals, and for
// each bucket the opposite ones that do not differ from it are found once: first by classes those that agree in the marks of
// the atom itself, and of these the ones that agree in all marks. So the work is in proportion to the members that may meet.
ghost use Rattle.std.specs.Prelude.{◌≡◌, ◌<◌, ℕ, suc, List, length, IfOk, OnOk};
ghost use Rattle.std.specs.List.{Contains};
ghost use Rattle.cert_format.specs.Certificate as format;
ghost use Rattle.cert_values.specs.Values.{saturation_of};
ghost use Rattle.cert_values.specs.Wholes.{HasPlaces, IsWholeSaturation};
ghost use Rattle.cert_index.specs.declared.fingerprint.Fingerprint as declared;
ghost use Rattle.cert_index.specs.Buckets.{AreInBuckets, AreKnown};
ghost use Rattle.cert_index.specs.Chains.{AreAlike, AreGrouped, AreMeetings, AreOpposite, AreOpposites, HaveOpposite, IsAddedAlike, MayMeet, TellsApart, list_at};
ghost use Rattle.cert_index.specs.Fingerprints.{TellApart};
ghost use Rattle.cert_index.specs.Meetings.{LeadsOn};
ghost use Rattle.cert_index.specs.Partners.{AreApart, HasChains, Head};

use crate::buckets::{Buckets, find_buckets};
use crate::fingerprint::{Fingerprint, find_fingerprints, tops_of};
use crate::links::{Links, find_links};
use crate::narrow::find_classes;
use crate::partners::{HeadId, Partners, find_heads, place_of};
use cert_values::Saturation;
use compact_lists::FlatLists;
use inst_logic::Memory;
use prop_logic::complement;
use std::alloc::Global;

/// The items of each bucket, and for each bucket, counted from 0, the buckets that it may meet, in no order.
#[derive(Drop)]
pub struct Meetings {
    links: Links,
    opposites: FlatLists<usize>,
}

// Adds place `q`, unless its fingerprint differs from that of place `p`.
fn add_alike(
    alike: &mut Vec<usize>,
    fingerprints: &[Fingerprint],
    p: usize,
    q: usize,
) -> Result<(), Memory>
    requires here { p < length fingerprints.now }
    requires there { q < length fingerprints.now }
    ensures { OnOk result (IsAddedAlike fingerprints.now p q alike.old.items alike.new.items) }
{
    if fingerprints[p].differs(&fingerprints[q]) {
        return Ok(());
    }
    alike.push(q)?;
    Ok(())
}

// Fills the list with those of the places whose fingerprints do not differ from that of place `p`.
fn find_alike(
    alike: &mut Vec<usize>,
    fingerprints: &[Fingerprint],
    p: usize,
    places: &[usize],
) -> Result<(), Memory>
    requires here { p < length fingerprints.now }
    requires there { (q : ℕ) → Contains places.now q → q < length fingerprints.now }
    ensures { OnOk result (AreAlike fingerprints.now p places.now alike.new.items) }
{
    alike.clear();
    for q in places {
        add_alike(alike, fingerprints, p, *q)?;
    }
    Ok(())
}

// Fills the list with the places of the head that is opposite to that of place `p`.
fn find_opposite_heads(
    opposite: &mut Vec<usize>,
    classes: &Partners,
    p: usize,
) -> Result<(), Memory>
    requires chains { HasChains classes.now }
    requires within { p < length classes.now.heads.items }
    ensures { OnOk result (HaveOpposite classes.now.heads.items p (length classes.now.heads.items) opposite.new.items) }
{
    opposite.clear();
    let count = classes.heads.len();
    let head = classes.heads[p];
    let other = complement(head);
    let mut q = place_of(&classes.first, other, count);
    while q < count {
        opposite.push(q)?;
        q = classes.same[q];
    }
    Ok(())
}

// Fills the list with the places that neither their classes nor their fingerprints tell apart from place `p`. `room` is room to
// work in.
fn find_opposite(
    alike: &mut Vec<usize>,
    room: &mut Vec<usize>,
    classes: &Partners,
    fingerprints: &[Fingerprint],
    p: usize,
) -> Result<(), Memory>
    requires chains { HasChains classes.now }
    requires count { length fingerprints.now ≡ length classes.now.heads.items }
    requires within { p < length classes.now.heads.items }
    ensures { OnOk result (AreOpposite classes.now.heads.items fingerprints.now p alike.new.items) }
{
    find_opposite_heads(room, classes, p)?;
    find_alike(alike, fingerprints, p, room.as_slice())?;
    Ok(())
}

// For each place those that neither their classes nor their fingerprints tell apart from it.
fn find_opposites(
    alloc: Global,
    classes: &Partners,
    fingerprints: &[Fingerprint],
) -> Result<FlatLists<usize>, Memory>
    requires chains { HasChains classes.now }
    requires count { length fingerprints.now ≡ length classes.now.heads.items }
    ensures { IfOk result (λ vs. AreOpposites classes.now.heads.items fingerprints.now (length fingerprints.now) vs) }
{
    let mut opposites = FlatLists::new(alloc);
    let mut room = Vec::new(alloc);
    let mut alike = Vec::new(alloc);
    for p in 0..fingerprints.len() {
        find_opposite(&mut alike, &mut room, classes, fingerprints, p)?;
        opposites.push(&alike)?;
    }
    Ok(opposites)
}

// For each of the places with these heads and fingerprints those that are not told apart from it.
fn opposites_by_classes(
    alloc: Global,
    heads: &[HeadId],
    fingerprints: &[Fingerprint],
) -> Result<FlatLists<usize>, Memory>
    requires { length fingerprints.now ≡ length heads.now }
    ensures { IfOk result (λ vs. AreOpposites heads.now fingerprints.now (length heads.now) vs) }
{
    let classes = find_classes(alloc, heads, fingerprints)?;
    find_opposites(alloc, &classes, fingerprints)
}

// For each of the places those that are not told apart from it, where places that cannot meet are told apart already.
fn opposites_within(
    alloc: Global,
    meetings: &Meetings,
    fingerprints: &[Fingerprint],
) -> Result<FlatLists<usize>, Memory>
    requires grouped { AreGrouped meetings.now }
    requires count { length meetings.now.links.numbers.items ≡ length fingerprints.now }
    ensures { (hs : List Head) → TellsApart hs fingerprints.now meetings.now → IfOk result (λ vs. AreOpposites hs fingerprints.now (length hs) vs) }
{
    let mut opposites = FlatLists::new(alloc);
    let mut places = Vec::new(alloc);
    let mut alike = Vec::new(alloc);
    for p in 0..fingerprints.len() {
        meetings.gather(&mut places, p, 0)?;
        find_alike(&mut alike, fingerprints, p, &places)?;
        opposites.push(&alike)?;
    }
    Ok(opposites)
}

// The items of buckets that these buckets are opposite to.
fn meetings_by(
    alloc: Global,
    buckets: Buckets,
    opposites: FlatLists<usize>,
) -> Result<Meetings, Memory>
    requires { AreKnown buckets }
    ensures { (hs : List Head) → (ps : List declared.Fingerprint) → AreInBuckets hs ps buckets → AreOpposites buckets.heads.items buckets.fingerprints.items (length buckets.heads.items) opposites → IfOk result (TellsApart hs ps) }
{
    let Buckets { numbers, heads, .. } = buckets;
    let count = heads.len();
    let links = find_links(alloc, numbers, count)?;
    Ok(Meetings { links, opposites })
}

// Which items with these heads and fingerprints agree in the marks of the atoms themselves.
fn meetings_of_tops(
    alloc: Global,
    heads: &[HeadId],
    fingerprints: &[Fingerprint],
) -> Result<Meetings, Memory>
    requires { length fingerprints.now ≡ length heads.now }
    ensures { IfOk result (TellsApart heads.now fingerprints.now) }
{
    let tops = tops_of(alloc, fingerprints)?;
    let buckets = find_buckets(alloc, heads, &tops)?;
    let opposites = opposites_by_classes(alloc, &buckets.heads, &buckets.fingerprints)?;
    meetings_by(alloc, buckets, opposites)
}

// Which items with these heads and fingerprints may meet.
fn meetings_of_all(
    alloc: Global,
    heads: &[HeadId],
    fingerprints: &[Fingerprint],
) -> Result<Meetings, Memory>
    requires { length fingerprints.now ≡ length heads.now }
    ensures { IfOk result (TellsApart heads.now fingerprints.now) }
{
    let buckets = find_buckets(alloc, heads, fingerprints)?;
    let tops = meetings_of_tops(alloc, &buckets.heads, &buckets.fingerprints)?;
    let opposites = opposites_within(alloc, &tops, &buckets.fingerprints)?;
    meetings_by(alloc, buckets, opposites)
}

// Which members with these heads and fingerprints may meet.
pub fn find_meetings(
    alloc: Global,
    heads: &[HeadId],
    fingerprints: &[Fingerprint],
) -> Result<Meetings, Memory>
    requires { length fingerprints.now ≡ length heads.now }
    ensures { (c : format.Saturation) → length heads.now ≡ length c.base.members → AreApart c heads.now → TellApart c fingerprints.now → IfOk result (AreMeetings c) }
{
    meetings_of_all(alloc, heads, fingerprints)
}

// Which members of a certificate may meet.
pub fn meetings_of(alloc: Global, cert: &Saturation) -> Result<Meetings, Memory>
    requires whole { IsWholeSaturation cert.now }
    requires placed { HasPlaces (saturation_of cert.now) }
    ensures { IfOk result (AreMeetings (saturation_of cert.now)) }
{
    let fingerprints = find_fingerprints(alloc, cert)?;
    let heads = find_heads(alloc, cert)?;
    find_meetings(alloc, &heads, &fingerprints)
}

impl Meetings {
    // The buckets that this one may meet.
    fn opposites_of(&self, bucket: usize) -> &[usize]
        ensures { result.now ≡ list_at self.now.opposites bucket }
    {
        match self.opposites.get(bucket) {
            Some(opposite) => opposite,
            None => &[],
        }
    }

    // Fills the list with the items from `from` on that may meet item `i`, in no order.
    fn gather(&self, items: &mut Vec<usize>, i: usize, from: usize) -> Result<(), Memory>
        requires grouped { AreGrouped self.now }
        requires within { i < length self.now.links.numbers.items }
        ensures { OnOk result (MayMeet self.now i from items.new.items) }
    {
        items.clear();
        let bucket = self.links.numbers[i];
        let opposite = self.opposites_of(bucket);
        for number in opposite {
            self.links.add_items(items, *number, from)?;
        }
        Ok(())
    }

    /// Fills the list with the later members that may meet member `i`, counted from 0, in rising order.
    pub fn later_partners(
        &self,
        partners: &mut Vec<usize>,
        cert: &Saturation,
        i: usize,
    ) -> Result<(), Memory>
        requires meetings { AreMeetings (saturation_of cert.now) self.now }
        requires within { i < length cert.now.base.members }
        ensures { OnOk result (LeadsOn (saturation_of cert.now) i (suc i) partners.new.items) }
    {
        self.gather(partners, i, i + 1)?;
        partners.sort_unstable();
        partners.dedup();
        Ok(())
    }
}
