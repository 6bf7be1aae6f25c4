//! Bytes before they are judged.

use crate::Refusal;
use crate::passed::Passed;
use inspector::inspect;
use view::View;

/// Bytes that are offered as a sheet, from any hand. (spent by `pass`)
#[derive(Drop, Debug)]
pub struct Offered<'a> {
    bytes: &'a [u8],
}

impl<'a> Offered<'a> {
    ghost use Rattle.std.specs.Prelude.{◌≡◌};
    ghost use Rattle.std.specs.Result.{result_map_both};
    ghost use Rattle.cards.specs.Cards.{passed};
    ghost use Rattle.cards.specs.Parts.{offered_bytes, passed_bytes};

    /// Offers bytes.
    pub fn new(bytes: &'a [u8]) -> Offered<'a>
        ensures { offered_bytes result ≡ bytes.now }
    {
        Offered { bytes }
    }

    /// Passes over a view, or is refused as inspect refuses; either way the offer is spent.
    pub fn pass<V: View>(self, view: &V) -> Result<Passed<'a>, Refusal>
        ensures { result_map_both passed_bytes (λ e. e) result
            ≡ passed (V.View.site view.now) (offered_bytes self.entry) }
    {
        inspect(view, self.bytes)?;
        Ok(Passed { bytes: self.bytes })
    }
}
