//! Four tables that hold a plan.

ghost use Rattle.std.specs.Prelude.{◌≡◌, ◌+◌, ◌<◌, ◌≤◌, ◌++◌, true, length};
ghost use Rattle.std.specs.List.{flat_map};
ghost use Rattle.cores.specs.Site.{sized};
ghost use Rattle.sheet.specs.Plans.{stations, has_equal_lengths, entry, lowest_fault};
ghost use Rattle.sheet.specs.Encoding.{field, station_bytes, encode};
ghost use Rattle.sheet.specs.Parts.{plan_of_tables, bytes_written};

use crate::NO_UP;
use crate::draft::{Draft, LONGEST};
use crate::entry::Entry;
use crate::roll::Roll;

/// The number, the home and the up of each station, 65,535 for no up, and an order, as they are lent.
#[derive(Clone, Copy)]
pub(crate) struct Tables<'a> {
    pub(crate) numbers: &'a [u16],
    pub(crate) homes: &'a [u16],
    pub(crate) ups: &'a [u16],
    pub(crate) order: &'a [u16],
}

impl Tables<'_> {
    /// Whether they have equally many entries.
    pub(crate) fn has_equal_lengths(&self) -> bool
        ensures { result ≡ has_equal_lengths (plan_of_tables self.now) }
    {
        let count = self.numbers.len();
        self.homes.len() == count && self.ups.len() == count && self.order.len() == count
    }

    /// What they say of a station.
    fn entry(&self, s: usize) -> Entry
        requires equal { has_equal_lengths (plan_of_tables self.now) ≡ true }
        requires on_site { s < stations (plan_of_tables self.now) }
        ensures { result ≡ entry (plan_of_tables self.now) s }
    {
        let up = self.ups[s];
        Entry {
            number: self.numbers[s],
            home: self.homes[s],
            up: (up != NO_UP).then_some(up),
        }
    }

    /// The lowest entry at fault, if there is one.
    pub(crate) fn find_fault(&self) -> Option<usize>
        requires equal { has_equal_lengths (plan_of_tables self.now) ≡ true }
        requires counted { sized (stations (plan_of_tables self.now)) ≡ true }
        ensures { result ≡ lowest_fault (plan_of_tables self.now) }
    {
        let count = self.numbers.len();
        let mut roll = Roll::new(count);
        for (i, station) in self.order.iter().enumerate() {
            if self.entry(i).is_at_fault(count, i) || !roll.name(*station) {
                return Some(i);
            }
        }
        None
    }

    /// Writes the stations.
    fn push_stations(&self, sheet: &mut Draft)
        requires equal { has_equal_lengths (plan_of_tables self.now) ≡ true }
        requires room { length (bytes_written sheet.old)
            + length (station_bytes (plan_of_tables self.now)) ≤ LONGEST }
        ensures { bytes_written sheet.new
            ≡ bytes_written sheet.old ++ station_bytes (plan_of_tables self.now) }
    {
        for s in 0..self.numbers.len() {
            sheet.push_entry(s, self.entry(s));
        }
    }

    /// Writes the order.
    fn push_order(&self, sheet: &mut Draft)
        requires { length (bytes_written sheet.old)
            + length (flat_map field self.now.order.now) ≤ LONGEST }
        ensures { bytes_written sheet.new
            ≡ bytes_written sheet.old ++ flat_map field self.now.order.now }
    {
        for station in self.order {
            sheet.push_field(*station);
        }
    }

    /// Writes the sheet of the plan.
    #[tactic(auto, unfolding(crate::specs::Encoding::encode))]
    pub(crate) fn encode(&self) -> Draft
        requires equal { has_equal_lengths (plan_of_tables self.now) ≡ true }
        requires counted { sized (stations (plan_of_tables self.now)) ≡ true }
        requires room { length (encode (plan_of_tables self.now)) ≤ LONGEST }
        ensures { bytes_written result ≡ encode (plan_of_tables self.now) }
    {
        let mut sheet = Draft::new();
        // a cast, as there are 512 stations at most
        sheet.push_field(self.numbers.len() as u16);
        self.push_stations(&mut sheet);
        self.push_order(&mut sheet);
        sheet
    }
}
