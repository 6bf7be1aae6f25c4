//! Read: from a sheet to four tables.

ghost use Rattle.std.specs.Prelude.{◌≡◌, map};
ghost use Rattle.sheet.specs.Plans.{stations};
ghost use Rattle.view.specs.Answers.{answer, left_in};
ghost use Rattle.view.specs.Ups.{up_in_table};
ghost use Rattle.sheet.specs.Calls.{read_into};

use crate::Refusal;
use crate::unpacked::Unpacked;

/// Reads a sheet into four tables: the number, the home and the up of each station, 65,535 for no up, and the order.
/// Answers how many stations there are, which is how many entries of each table are written.
pub fn read(
    sheet: &[u8],
    numbers: &mut [u16],
    homes: &mut [u16],
    ups: &mut [u16],
    order: &mut [u16],
) -> Result<usize, Refusal>
    ensures answer { result ≡ answer stations (read_into sheet.now numbers.old homes.old ups.old order.old) }
    ensures numbers { numbers.new
        ≡ left_in (λ p. p.numbers) (read_into sheet.now numbers.old homes.old ups.old order.old) numbers.old }
    ensures homes { homes.new
        ≡ left_in (λ p. p.homes) (read_into sheet.now numbers.old homes.old ups.old order.old) homes.old }
    ensures ups { ups.new
        ≡ left_in (λ p. map up_in_table p.ups) (read_into sheet.now numbers.old homes.old ups.old order.old) ups.old }
    ensures order { order.new
        ≡ left_in (λ p. p.order) (read_into sheet.now numbers.old homes.old ups.old order.old) order.old }
{
    let plan = Unpacked::decode(sheet)?;
    let stations = usize::from(plan.count);
    let room = numbers
        .len()
        .min(homes.len())
        .min(ups.len().min(order.len()));
    if room < stations {
        return Err(Refusal::BufferShort { needed: stations });
    }
    plan.copy_to(numbers, homes, ups, order);
    Ok(stations)
}
