// The measures of nodes, packed: twelve bytes each. The few that have no room in so many stand in a list of their own, and
// the entry has their place there.
ghost use Rattle.std.specs.Prelude.{◌≡◌, ◌^◌, ◌<◌, [], ◌∷◌, ◌++◌, ℕ, List, length, take, IfSome, OnOk};
ghost use Rattle.std.specs.Vec.{vec_len, vec_capacity};
ghost use Rattle.term_bank.specs.declared.node.Measures.{Measures};
ghost use Rattle.term_bank.specs.Forest.{KeepsPlaces};
ghost use Rattle.term_bank.specs.Nodes.{measures_in, no_measures};
ghost use Rattle.term_bank.specs.ShortMeasures.{greatest_in, measures_of, IsWithin};

use crate::node::Measures;
use inst_logic::Memory;
use std::alloc::Global;
use std::marker::Model;

// The size of an entry whose measures stand in the list of the long ones.
const LONG: u32 = 0xffff_ffff;

// The measures of a node, where the greatest variable is one more than its number, and 0 for none. Where the size is `LONG`, the
// weight is the place of the measures in the list of the long ones.
#[derive(Clone, Copy)]
pub struct ShortMeasures {
    size: u32,
    weight: u32,
    greatest: u32,
}

const _: () = prove!(size_of::<ShortMeasures>() == 12);

// The measures of each node by its number.
#[derive(Drop)]
pub struct MeasureList {
    short: Vec<ShortMeasures>,
    long: Vec<Measures>,
}

impl Model for MeasureList {
    ghost use Rattle.term_bank.specs.MeasureTables.{MeasureTable};

    ghost Value = { MeasureTable };

    ghost use Rattle.term_bank.specs.MeasureLists.{table_of, IsTable};

    ghost view = { table_of };

    ghost invariant = { IsTable };
}

// One more than the number, and 0 for none, where that has room in four bytes.
fn greatest_code(greatest: Option<usize>) -> Option<u32>
    ensures { IfSome result (λ code. greatest_in code ≡ greatest) }
{
    match greatest {
        None => Some(0),
        Some(v) => match u32::try_from(v) {
            Ok(v) => v.checked_add(1),
            Err(_) => None,
        },
    }
}

// The number whose code it is.
fn greatest_of(code: u32) -> Option<usize>
    ensures { result ≡ greatest_in code }
{
    if code == 0 {
        return None;
    }
    Some((code - 1) as usize)
}

// The entry of measures that have room in it.
fn short_measures(measures: Measures) -> Option<ShortMeasures>
    ensures measures { IfSome result (λ s. (long : List Measures) → measures_of long s ≡ measures) }
    ensures within { IfSome result (λ s. (count : ℕ) → IsWithin count s) }
{
    let size = u32::try_from(measures.size);
    let weight = u32::try_from(measures.weight);
    let greatest = greatest_code(measures.greatest);
    let (Ok(size), Ok(weight), Some(greatest)) = (size, weight, greatest) else {
        return None;
    };
    if size == LONG {
        return None;
    }
    Some(ShortMeasures {
        size,
        weight,
        greatest,
    })
}

// Puts the measures at the end of the list of the long ones, and gives their entry.
fn put_long(long: &mut Vec<Measures>, measures: Measures) -> ShortMeasures
    requires room { vec_len long.old < vec_capacity long.old }
    requires place { vec_len long.old < 2 ^ 32 }
    ensures keeps { KeepsPlaces no_measures long.old.items long.new.items }
    ensures measures { measures_of long.new.items result ≡ measures }
    ensures within { IsWithin (length long.new.items) result }
{
    let place = long.len() as u32;
    long.push_reserved(measures);
    ShortMeasures {
        size: LONG,
        weight: place,
        greatest: 0,
    }
}

// The entry of the measures, which go to the list of the long ones where they have no room in it.
fn entry_of(long: &mut Vec<Measures>, measures: Measures) -> ShortMeasures
    requires room { vec_len long.old < vec_capacity long.old }
    requires place { vec_len long.old < 2 ^ 32 }
    ensures keeps { KeepsPlaces no_measures long.old.items long.new.items }
    ensures measures { measures_of long.new.items result ≡ measures }
    ensures within { IsWithin (length long.new.items) result }
{
    match short_measures(measures) {
        Some(entry) => entry,
        None => put_long(long, measures),
    }
}

// The measures of the entry.
fn measures_at_entry(long: &Vec<Measures>, entry: ShortMeasures) -> Measures
    requires { IsWithin (length long.now.items) entry }
    ensures { result ≡ measures_of long.now.items entry }
{
    if entry.size == LONG {
        return long[entry.weight as usize];
    }
    Measures {
        size: u64::from(entry.size),
        weight: u64::from(entry.weight),
        greatest: greatest_of(entry.greatest),
    }
}

impl MeasureList {
    // An empty one, which takes no memory.
    pub fn new(alloc: Global) -> MeasureList
        ensures items { result.items ≡ [] }
    {
        MeasureList {
            short: Vec::new(alloc),
            long: Vec::new(alloc),
        }
    }

    // The measures of the node of this number.
    pub fn at(&self, number: usize) -> Measures
        requires { number < length self.now.items }
        ensures { result ≡ measures_in self.now.items number }
    {
        measures_at_entry(&self.long, self.short[number])
    }

    // Makes room for the measures of one more node, whatever they are.
    pub fn reserve(&mut self) -> Result<(), Memory>
        ensures items { self.new.items ≡ self.old.items }
        ensures room { OnOk result (0 < self.new.room) }
    {
        if self.long.len() > u32::MAX as usize {
            return Err(Memory);
        }
        self.short.reserve(1)?;
        self.long.reserve(1)?;
        Ok(())
    }

    // Puts the measures at the end.
    pub fn push_reserved(&mut self, measures: Measures)
        requires { 0 < self.old.room }
        ensures items { self.new.items ≡ self.old.items ++ measures ∷ [] }
    {
        let entry = entry_of(&mut self.long, measures);
        self.short.push_reserved(entry);
    }

    // Keeps the measures of the first nodes. Those of the others that stand in the list of the long ones are left there, and
    // no entry has their place.
    pub fn truncate(&mut self, len: usize)
        ensures items { self.new.items ≡ take len self.old.items }
    {
        self.short.truncate(len);
    }
}
