// The check of the places of the selected literals. It comes before all that reads a selected literal, and takes no memory.
ghost use Rattle.cert_check.specs.Firsts.{IsFirstWrongOf};
ghost use Rattle.cert_format.specs.Validity.{IsRightPlace};
ghost use Rattle.cert_values.specs.Values.{saturation_of};
ghost use Rattle.std.specs.Prelude.{◌≡◌, ◌↔◌, ◌<◌, ◌≤◌, IsTrue, suc, max, length, true, false};

use cert_values::Saturation;
use term_bank::IdClause;

fn has_literal(c: &IdClause, place: usize) -> bool
    ensures { IsTrue result ↔ (0 < place) × (place ≤ length c.now) }
{
    place > 0 && place <= c.len()
}

// Whether member `i`, counted from 0, has a literal at its place.
fn is_placed(cert: &Saturation, i: usize) -> bool
    ensures right { result ≡ true → IsRightPlace (saturation_of cert.now) (suc i) }
    ensures wrong { result ≡ false → i < max (length cert.now.base.members) (length cert.now.places) → ¬ (IsRightPlace (saturation_of cert.now) (suc i)) }
{
    match cert.base.members.get(i) {
        None => false,
        Some(member) => match cert.places.get(i) {
            None => false,
            Some(place) => has_literal(&member.clause, *place),
        },
    }
}

// The number of the first member that has no literal at its place, or of the first member or place that is alone.
pub fn wrong_place(cert: &Saturation) -> Option<usize>
    ensures { IsFirstWrongOf (IsRightPlace (saturation_of cert.now)) result }
{
    for i in 0..cert.base.members.len().max(cert.places.len()) {
        if !is_placed(cert, i) {
            return Some(i + 1);
        }
    }
    None
}
