//! Inspect: whether a sheet is that of a view.

ghost use Rattle.std.specs.Prelude.{◌≡◌};
ghost use Rattle.inspector.specs.Inspecting.{inspected};

use crate::Refusal;
use crate::claim::Claim;
use crate::comparing::find_wrong;
use crate::judging::Judged;
use view::View;
use view::counts::admit;

/// Inspects a sheet over a view. It passes if its numbers, homes and ups are those of the view and its order is
/// rightful; the refusal names the lowest station at fault, or the lowest whose home or up is wrong.
pub fn inspect<V: View>(view: &V, sheet: &[u8]) -> Result<(), Refusal>
    ensures { result ≡ inspected (V.View.site view.now) sheet.now }
{
    let stations = view.stations();
    admit(stations)?;
    let claim = Claim::read(sheet)?;
    if claim.stations != stations {
        return Err(Refusal::CountsDiffer);
    }
    if let Some(station) = Judged::new(view, claim.numbers(), claim.order()).find_fault() {
        return Err(Refusal::StationAtFault { station });
    }
    if let Some(station) = find_wrong(view, &claim)? {
        return Err(Refusal::HomeOrUpWrong { station });
    }
    Ok(())
}
