//! Sheets that passed.

use crate::Refusal;
use crate::writing::write_cards;
use sheet::read;

/// A sheet that passed. (spent by `issue`)
#[derive(Drop, Debug)]
pub struct Passed<'a> {
    pub(crate) bytes: &'a [u8],
}

impl Passed<'_> {
    ghost use Rattle.std.specs.Prelude.{◌≡◌, length};
    ghost use Rattle.view.specs.Answers.{answer, left_in};
    ghost use Rattle.cards.specs.Cards.{issued};
    ghost use Rattle.cards.specs.Parts.{passed_bytes};

    /// Writes the route cards, two bytes for each station, low byte first. Answers how many bytes. The sheet is spent.
    pub fn issue(self, out: &mut [u8]) -> Result<usize, Refusal>
        ensures answer { result ≡ answer length (issued (passed_bytes self.entry) (length out.old)) }
        ensures out { out.new ≡ left_in (λ cards. cards) (issued (passed_bytes self.entry) (length out.old)) out.old }
    {
        let mut numbers = [0; 512];
        let mut homes = [0; 512];
        let mut ups = [0; 512];
        let mut order = [0; 512];
        let stations = read(self.bytes, &mut numbers, &mut homes, &mut ups, &mut order)?;
        let needed = 2 * stations;
        if out.len() < needed {
            return Err(Refusal::BufferShort { needed });
        }
        write_cards(&homes[..stations], &ups[..stations], out);
        Ok(needed)
    }
}
