// The literal that a saturation selects in a member.
ghost use Rattle.std.specs.Prelude.{◌<◌, ◌≤◌, suc, length};
ghost use Rattle.cert_values.specs.SelectedLiteral.{IsSelectedLiteral};
ghost use Rattle.cert_values.specs.Values.{saturation_of};
ghost use Rattle.cert_values.specs.Wholes.{HasPlaces, IsWholeSaturation};

use crate::certificate::Saturation;
use term_bank::IdLiteral;

/// The selected literal of member `i`, counted from 0. Its place counts from 1.
pub fn selected(cert: &Saturation, i: usize) -> &IdLiteral
    requires whole { IsWholeSaturation cert.now }
    requires placed { HasPlaces (saturation_of cert.now) }
    requires within { i < length cert.now.base.members }
    ensures { IsSelectedLiteral cert.now (suc i) result.now }
{
    let member = &cert.base.members.as_slice()[i];
    let place = cert.places.as_slice()[i];
    &member.clause.as_slice()[place - 1]
}

/// The selected literal of member `n`, counted from 1.
pub fn selected_of(cert: &Saturation, n: usize) -> &IdLiteral
    requires whole { IsWholeSaturation cert.now }
    requires placed { HasPlaces (saturation_of cert.now) }
    requires member { (0 < n) × (n ≤ length cert.now.base.members) }
    ensures { IsSelectedLiteral cert.now n result.now }
{
    selected(cert, n - 1)
}
