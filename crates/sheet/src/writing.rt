//! Put: from four tables to a sheet.

ghost use Rattle.std.specs.Prelude.{◌≡◌, length};
ghost use Rattle.view.specs.Answers.{answer, left_in};
ghost use Rattle.sheet.specs.Calls.{plan_in, put_bytes};

use crate::Refusal;
use crate::tables::Tables;
use view::counts::admit;

/// Writes four tables as a sheet: the number, the home and the up of each station, 65,535 for no up, and the order.
/// Answers the length of the sheet, which is how many bytes of the buffer are written.
pub fn put(
    numbers: &[u16],
    homes: &[u16],
    ups: &[u16],
    order: &[u16],
    out: &mut [u8],
) -> Result<usize, Refusal>
    ensures answer { result
        ≡ answer length (put_bytes (plan_in numbers.now homes.now ups.now order.now) (length out.old)) }
    ensures out { out.new
        ≡ left_in (λ bytes. bytes) (put_bytes (plan_in numbers.now homes.now ups.now order.now) (length out.old)) out.old }
{
    let tables = Tables {
        numbers,
        homes,
        ups,
        order,
    };
    if !tables.has_equal_lengths() {
        return Err(Refusal::CountOutOfRange);
    }
    admit(numbers.len())?;
    if let Some(place) = tables.find_fault() {
        return Err(Refusal::NotASheet { place });
    }
    tables.encode().copy_to(out)
}
