//! Which views and tables are taken.

ghost use Rattle.std.specs.Prelude.{◌≡◌};
ghost use Rattle.drawer.specs.Calls.{stations_for};

use crate::Refusal;
use view::View;
use view::counts::admit;

/// The station count of a view. Refuses a count out of range, and then a table with less room.
pub(crate) fn admit_into<V: View>(view: &V, room: usize) -> Result<usize, Refusal>
    ensures { result ≡ stations_for (V.View.site view.now) room }
{
    let stations = view.stations();
    admit(stations)?;
    if room < stations {
        return Err(Refusal::BufferShort { needed: stations });
    }
    Ok(stations)
}
