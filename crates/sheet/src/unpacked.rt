//! A sheet that was read.

ghost use Rattle.std.specs.Prelude.{◌≤◌};

use crate::entry::Entry;
use crate::fields::{Fault, count};
use crate::lists::{entries, order};
use crate::{NO_UP, Refusal};

/// The plan on a sheet, for so many stations.
#[derive(Drop)]
pub(crate) struct Unpacked {
    pub(crate) count: u16,
    entries: [Entry; 512],
    order: [u16; 512],
    ghost few: { count ≤ 512 },
}

impl Unpacked {
    ghost use Rattle.std.specs.Prelude.{◌≡◌, ◌++◌, length, map, drop};
    ghost use Rattle.std.specs.Result.{result_map_both};
    ghost use Rattle.refusals.specs.declared.Refusal.TheVariants.{NotASheet};
    ghost use Rattle.sheet.specs.Decoding.{sheet_at, decode};
    ghost use Rattle.view.specs.Ups.{up_in_table};
    ghost use Rattle.sheet.specs.Parts.{plan_of_unpacked, unpacked};

    /// Reads a whole sheet.
    #[tactic(auto, unfolding(crate::specs::Decoding::sheet_at))]
    pub(crate) fn read(sheet: &[u8]) -> Result<Unpacked, Fault<'_>>
        ensures { unpacked result ≡ sheet_at sheet.now }
    {
        let (count, rest) = count(sheet)?;
        let mut plan = Unpacked {
            count,
            entries: [Entry::BLANK; 512],
            order: [0; 512],
        };
        let rest = entries(&mut plan.entries, count, rest)?;
        let rest = order(&mut plan.order, count, rest)?;
        if rest.is_empty() {
            Ok(plan)
        } else {
            Err(Fault { from: rest })
        }
    }

    /// Reads a whole sheet, or tells where it is none.
    #[tactic(auto, unfolding(crate::specs::Decoding::decode))]
    pub(crate) fn decode(sheet: &[u8]) -> Result<Unpacked, Refusal>
        ensures { result_map_both plan_of_unpacked (λ e. e) result
            ≡ result_map_both (λ p. p) NotASheet (decode sheet.now) }
    {
        match Unpacked::read(sheet) {
            Ok(plan) => Ok(plan),
            Err(fault) => Err(Refusal::NotASheet {
                place: sheet.len() - fault.from.len(),
            }),
        }
    }

    /// Copies the plan to tables with room for it.
    pub(crate) fn copy_to(
        &self,
        numbers: &mut [u16],
        homes: &mut [u16],
        ups: &mut [u16],
        order: &mut [u16],
    )
        requires numbers_fit { self.now.count ≤ length numbers.old }
        requires homes_fit { self.now.count ≤ length homes.old }
        requires ups_fit { self.now.count ≤ length ups.old }
        requires order_fits { self.now.count ≤ length order.old }
        ensures numbers { numbers.new
            ≡ (plan_of_unpacked self.now).numbers ++ drop self.now.count numbers.old }
        ensures homes { homes.new
            ≡ (plan_of_unpacked self.now).homes ++ drop self.now.count homes.old }
        ensures ups { ups.new
            ≡ map up_in_table (plan_of_unpacked self.now).ups ++ drop self.now.count ups.old }
        ensures order { order.new
            ≡ (plan_of_unpacked self.now).order ++ drop self.now.count order.old }
    {
        let count = usize::from(self.count);
        for (s, entry) in self.entries[..count].iter().enumerate() {
            numbers[s] = entry.number;
            homes[s] = entry.home;
            ups[s] = entry.up.unwrap_or(NO_UP);
        }
        order[..count].copy_from_slice(&self.order[..count]);
    }
}
