// Some of the places of a list, by marks.
ghost use Rattle.std.specs.Prelude.{◌≡◌, ◌⊎◌, ◌++◌, ◌∷◌, [], length, All, Contains, IfOk, OnOk};
ghost use Rattle.std.specs.List.Sorted.{IsStrictlyIncreasing};

use inst_logic::Memory;
use std::alloc::Global;

// Appends the place where it is marked.
fn push_marked(some: &mut Vec<usize>, place: usize, marked: bool) -> Result<(), Memory>
    ensures { OnOk result ((some.new.items ≡ some.old.items) ⊎ (some.new.items ≡ some.old.items ++ place ∷ [])) }
{
    if marked {
        some.push(place)?;
    }
    Ok(())
}

/// The places that are marked, in their order.
pub fn marked_places(alloc: Global, places: &[usize], marks: &[bool]) -> Result<Vec<usize>, Memory>
    requires rising { IsStrictlyIncreasing places.now }
    requires each { length marks.now ≡ length places.now }
    ensures rising { IfOk result (λ some. IsStrictlyIncreasing some.items) }
    ensures within { IfOk result (λ some. All (Contains places.now) some.items) }
{
    let mut some = Vec::new(alloc);
    for i in 0..places.len() {
        push_marked(&mut some, places[i], marks[i])?;
    }
    Ok(some)
}
