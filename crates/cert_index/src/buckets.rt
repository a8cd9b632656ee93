// Buckets: what has one head and one fingerprint is in one bucket. So what is told apart by either is told apart once for all
// that is in two buckets, and not for each pair.
ghost use Rattle.std.specs.Prelude.{◌≡◌, length, map, IfOk, OnOk};
ghost use Rattle.term_bank.specs.Forest.{KeepsPlaces};
ghost use Rattle.cert_index.specs.Buckets.{AreInBuckets, AreNumbered, IsNumbered, no_bucket};
ghost use Rattle.cert_index.specs.declared.buckets.Bucket as declared;

use crate::fingerprint::Fingerprint;
use crate::partners::HeadId;
use indexmap::IndexSet;
use inst_logic::Memory;
use std::alloc::Global;

// What a bucket's items have in common.
#[derive(Clone, Copy, PartialEq, Eq, Hash)]
pub struct Bucket {
    head: HeadId,
    fingerprint: Fingerprint,
}

/// For each item, counted from 0, the number of its bucket, counted from 0; and the buckets' heads and fingerprints.
#[derive(Drop)]
pub struct Buckets {
    pub(crate) numbers: Vec<usize>,
    pub(crate) heads: Vec<HeadId>,
    pub(crate) fingerprints: Vec<Fingerprint>,
}

// The number of the bucket. A new one goes last.
fn number_of(known: &mut IndexSet<Bucket>, bucket: Bucket) -> Result<usize, Memory>
    ensures number { IfOk result (IsNumbered known.new.keys bucket) }
    ensures grown { OnOk result (KeepsPlaces no_bucket known.old.keys known.new.keys) }
{
    let (number, _) = known.insert_full(bucket)?;
    Ok(number)
}

// The numbers of the buckets of items with these heads and fingerprints.
fn number_all(
    alloc: Global,
    known: &mut IndexSet<Bucket>,
    heads: &[HeadId],
    fingerprints: &[Fingerprint],
) -> Result<Vec<usize>, Memory>
    requires { length fingerprints.now ≡ length heads.now }
    ensures { IfOk result (λ ns. AreNumbered known.new.keys heads.now fingerprints.now ns.items (length heads.now)) }
{
    let mut numbers = Vec::with_capacity(alloc, heads.len())?;
    for i in 0..heads.len() {
        let head = heads[i];
        let fingerprint = fingerprints[i];
        let number = number_of(known, Bucket { head, fingerprint })?;
        numbers.push(number)?;
    }
    Ok(numbers)
}

fn heads_of(alloc: Global, buckets: &[Bucket]) -> Result<Vec<HeadId>, Memory>
    ensures { IfOk result (λ hs. hs.items ≡ map (λ (b : declared.Bucket). b.head) buckets.now) }
{
    let mut heads = Vec::with_capacity(alloc, buckets.len())?;
    for bucket in buckets {
        heads.push(bucket.head)?;
    }
    Ok(heads)
}

fn fingerprints_of(alloc: Global, buckets: &[Bucket]) -> Result<Vec<Fingerprint>, Memory>
    ensures { IfOk result (λ ps. ps.items ≡ map (λ (b : declared.Bucket). b.fingerprint) buckets.now) }
{
    let mut fingerprints = Vec::with_capacity(alloc, buckets.len())?;
    for bucket in buckets {
        fingerprints.push(bucket.fingerprint)?;
    }
    Ok(fingerprints)
}

// The buckets of items with these heads and fingerprints, with an empty set to work in.
fn find_buckets_by(
    alloc: Global,
    known: &mut IndexSet<Bucket>,
    heads: &[HeadId],
    fingerprints: &[Fingerprint],
) -> Result<Buckets, Memory>
    requires { length fingerprints.now ≡ length heads.now }
    ensures { IfOk result (AreInBuckets heads.now fingerprints.now) }
{
    let numbers = number_all(alloc, known, heads, fingerprints)?;
    let buckets = known.as_slice();
    let heads = heads_of(alloc, buckets)?;
    let fingerprints = fingerprints_of(alloc, buckets)?;
    Ok(Buckets {
        numbers,
        heads,
        fingerprints,
    })
}

/// The buckets of items with these heads and fingerprints.
pub fn find_buckets(
    alloc: Global,
    heads: &[HeadId],
    fingerprints: &[Fingerprint],
) -> Result<Buckets, Memory>
    requires { length fingerprints.now ≡ length heads.now }
    ensures { IfOk result (AreInBuckets heads.now fingerprints.now) }
{
    let mut known: IndexSet<Bucket> = IndexSet::new(alloc);
    find_buckets_by(alloc, &mut known, heads, fingerprints)
}
