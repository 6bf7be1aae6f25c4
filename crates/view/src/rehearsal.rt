//! A rehearsal: one station is marked for as long as it lasts.

ghost use Rattle.std.specs.Prelude.{◌≡◌, true};
ghost use Rattle.view.specs.Service.{is_marked as marked, with_mark};
ghost use Rattle.view.specs.Rehearsed.{lent, rehearsed, station as station_of, was_marked, given_back};

use crate::service::ServiceList;

/// A service list with the mark of one station set. When the rehearsal is over, however it ends, the mark is back as it
/// was. A station of 512 or more has no mark: its rehearsal does nothing.
pub struct Rehearsal<'a> {
    list: &'a mut ServiceList,
    station: usize,
    before: bool,
}

impl<'a> Rehearsal<'a> {
    /// Begins a rehearsal of a station.
    pub fn begin(list: &'a mut ServiceList, station: usize) -> Rehearsal<'a>
        ensures lent { lent result ≡ list.entry.ghost_name }
        ensures list { rehearsed result ≡ with_mark list.old station true }
        ensures station { station_of result ≡ station }
        ensures before { was_marked result ≡ marked list.old station }
    {
        let before = list.is_marked(station);
        // refused only where there is no mark
        let _ = list.mark(station);
        Rehearsal {
            list,
            station,
            before,
        }
    }

    /// The list while the rehearsal lasts.
    pub fn list(&self) -> ServiceList
        ensures { result ≡ rehearsed self.now }
    {
        *self.list
    }
}

impl Drop for Rehearsal<'_> {
    fn drop(self)
        ensures { self.exit.0.now ≡ given_back self.entry }
    {
        let Rehearsal {
            list,
            station,
            before,
        } = self;
        // refused only where there is no mark
        let _ = list.note(station, before);
    }
}
