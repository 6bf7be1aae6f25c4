//! The service list: which stations are marked for service.

ghost use Rattle.std.specs.Prelude.{◌≡◌, true, false};
ghost use Rattle.view.specs.Service.{no_marks, is_marked as marked, with_mark, noted};

use crate::Refusal;

/// A mark for each station there can be. Each is set or clear.
#[derive(Clone, Copy, PartialEq, Eq, Debug)]
pub struct ServiceList {
    marks: [bool; 512],
}

impl ServiceList {
    /// The list with no mark set.
    pub fn new() -> ServiceList
        ensures { result ≡ no_marks }
    {
        ServiceList {
            marks: [false; 512],
        }
    }

    /// Whether the mark of a station is set; a station of 512 or more has none.
    pub fn is_marked(&self, station: usize) -> bool
        ensures { result ≡ marked self.now station }
    {
        self.marks.get(station).copied().unwrap_or(false)
    }

    /// Sets the mark of a station.
    pub fn mark(&mut self, station: usize) -> Result<(), Refusal>
        ensures list { self.new ≡ with_mark self.old station true }
        ensures answer { result ≡ noted station }
    {
        self.note(station, true)
    }

    /// Clears the mark of a station.
    pub fn clear(&mut self, station: usize) -> Result<(), Refusal>
        ensures list { self.new ≡ with_mark self.old station false }
        ensures answer { result ≡ noted station }
    {
        self.note(station, false)
    }

    /// Sets or clears the mark of a station.
    pub(crate) fn note(&mut self, station: usize, set: bool) -> Result<(), Refusal>
        ensures list { self.new ≡ with_mark self.old station set }
        ensures answer { result ≡ noted station }
    {
        if self.marks.len() <= station {
            return Err(Refusal::OffSite { station });
        }
        self.marks[station] = set;
        Ok(())
    }
}
