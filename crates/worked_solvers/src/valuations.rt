// Valuations over three words, and what changes between them.
ghost use Rattle.std.specs.Prelude.{◌≡◌, IfOk, length};

use inst_logic::Memory;
use prop_logic::{Valuation, changes};
use std::alloc::Global;

// Every third atom is true.
fn thirds(alloc: Global, count: usize) -> Result<Valuation, Memory>
    ensures { IfOk result (λ valuation. length valuation ≡ count) }
{
    let mut valuation = Valuation::new(alloc);
    for atom in 0..count {
        valuation.push(atom % 3 == 0)?;
    }
    Ok(valuation)
}

// Whether a valuation of 130 atoms is empty, its length, the values of some atoms by number and place, and those of two that
// are changed.
type Read = ((bool, usize), [bool; 6], [Option<bool>; 3], [bool; 2]);

fn read_by(valuation: &mut Valuation) -> Read
    requires { length valuation.old ≡ 130 }
{
    let size = (valuation.is_empty(), valuation.len());
    let values = [
        valuation.value(0),
        valuation.value(63),
        valuation.value(64),
        valuation.value(127),
        valuation.value(129),
        valuation.value(130),
    ];
    let places = [
        valuation.get(129).copied(),
        valuation.get(128).copied(),
        valuation.get(130).copied(),
    ];
    valuation.set(128, true);
    valuation.set(129, false);
    let changed = [valuation.value(128), valuation.value(129)];
    (size, values, places, changed)
}

fn read(alloc: Global) -> Result<Read, Memory> {
    let mut valuation = thirds(alloc, 130)?;
    Ok(read_by(&mut valuation))
}

pub fn values_are_read(alloc: Global) -> Result<bool, Memory> {
    Ok(
        read(alloc)?
            == (
                (false, 130),
                [true, true, false, false, true, false],
                [Some(true), Some(false), None],
                [true, false],
            ),
    )
}

// Whether these are the atoms whose values differ.
fn are_changed(
    alloc: Global,
    old: &Valuation,
    new: &Valuation,
    wanted: &[usize],
) -> Result<bool, Memory> {
    let found = changes(alloc, old, new)?;
    Ok(*found.as_slice() == *wanted)
}

// Changes the atoms 1, 63 and 128, and gives atom 130 a value.
fn change(valuation: &mut Valuation) -> Result<(), Memory>
    requires { length valuation.old ≡ 130 }
{
    valuation.set(1, true);
    valuation.set(63, false);
    valuation.set(128, true);
    valuation.push(true)?;
    Ok(())
}

fn changes_by(alloc: Global, old: &Valuation, new: &mut Valuation) -> Result<[bool; 3], Memory>
    requires { length new.old ≡ 130 }
{
    let before = are_changed(alloc, old, new, &[])?;
    change(new)?;
    let to = are_changed(alloc, old, new, &[1, 63, 128, 130])?;
    let back = are_changed(alloc, new, old, &[1, 63, 128, 130])?;
    Ok([before, to, back])
}

// Whether nothing differs before the changes, and each changed atom after them, to and fro.
fn changes_of(alloc: Global) -> Result<[bool; 3], Memory> {
    let old = thirds(alloc, 130)?;
    let mut new = old.copy(alloc)?;
    changes_by(alloc, &old, &mut new)
}

pub fn changes_are_listed(alloc: Global) -> Result<bool, Memory> {
    Ok(changes_of(alloc)? == [true; 3])
}
