//! From tables of homes and ups to the bytes of cards.

ghost use Rattle.std.specs.Prelude.{◌≡◌, ◌*◌, ◌≤◌, ◌++◌, length, drop};
ghost use Rattle.cards.specs.Cards.{card_by};
ghost use Rattle.cards.specs.Parts.{cards_in};

/// The card of station s, by its home and its up.
fn card(s: usize, home: u16, up: u16) -> u16
    ensures { result ≡ card_by s home up }
{
    if usize::from(home) == s { up } else { home }
}

/// Writes the card of each station to the front of a buffer, the low byte first.
pub(crate) fn write_cards(homes: &[u16], ups: &[u16], out: &mut [u8])
    requires alike { length ups.now ≡ length homes.now }
    requires room { 2 * length homes.now ≤ length out.old }
    ensures { out.new ≡ cards_in homes.now ups.now ++ drop (2 * length homes.now) out.old }
{
    for (s, home) in homes.iter().enumerate() {
        let [low, high] = card(s, *home, ups[s]).to_le_bytes();
        out[2 * s] = low;
        out[2 * s + 1] = high;
    }
}
