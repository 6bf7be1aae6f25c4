//! What a sheet claims of a site.

ghost use Rattle.std.specs.Prelude.{◌≤◌};

use crate::Refusal;
use sheet::read;

/// The plan on a sheet for so many stations, in the front of four tables.
#[derive(Drop)]
pub(crate) struct Claim {
    pub(crate) stations: usize,
    numbers: [u16; 512],
    homes: [u16; 512],
    ups: [u16; 512],
    order: [u16; 512],
    ghost few: { stations ≤ 512 },
}

impl Claim {
    ghost use Rattle.std.specs.Prelude.{◌≡◌, ◌&&◌, ◌==◌, not, slice_index};
    ghost use Rattle.std.specs.Result.{result_map_both};
    ghost use Rattle.refusals.specs.declared.Refusal.TheVariants.{NotASheet};
    ghost use Rattle.cores.specs.Counting.{lowest};
    ghost use Rattle.sheet.specs.Decoding.{decode};
    ghost use Rattle.inspector.specs.Parts.{claimed};

    /// Reads a whole sheet, or tells where it is none.
    pub(crate) fn read(sheet: &[u8]) -> Result<Claim, Refusal>
        ensures { result_map_both claimed (λ e. e) result
            ≡ result_map_both (λ p. p) NotASheet (decode sheet.now) }
    {
        let mut numbers = [0; 512];
        let mut homes = [0; 512];
        let mut ups = [0; 512];
        let mut order = [0; 512];
        let stations = read(sheet, &mut numbers, &mut homes, &mut ups, &mut order)?;
        Ok(Claim {
            stations,
            numbers,
            homes,
            ups,
            order,
        })
    }

    /// The number of each station.
    pub(crate) fn numbers(&self) -> &[u16]
        ensures { result.now ≡ (claimed self.now).numbers }
    {
        &self.numbers[..self.stations]
    }

    /// The order of the stations.
    pub(crate) fn order(&self) -> &[u16]
        ensures { result.now ≡ (claimed self.now).order }
    {
        &self.order[..self.stations]
    }

    /// The lowest station whose home or up differs from those in two tables, if there is one.
    pub(crate) fn find_difference(&self, homes: &[u16; 512], ups: &[u16; 512]) -> Option<usize>
        ensures { result ≡ lowest self.now.stations (λ s.
            not (slice_index self.now.homes s == slice_index homes.now s && slice_index self.now.ups s == slice_index ups.now s)) }
    {
        (0..self.stations).find(|s| self.homes[*s] != homes[*s] || self.ups[*s] != ups[*s])
    }
}
