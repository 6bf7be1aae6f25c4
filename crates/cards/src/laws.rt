//! The laws of the cards, each on a contract of its own.

ghost use Rattle.cards.specs.Meaning.{PassedSheetsAreSheets, CardsAreThoseOfTheSite, EachCardIsHomeOrUp};

/// What passes over a view is a sheet, and is refused its cards only for want of room.
pub fn passed_sheets_are_sheets()
    ensures { PassedSheetsAreSheets }
{}

/// The cards of a sheet that passes are those of the site: no other bytes that pass give others.
pub fn cards_are_those_of_the_site()
    ensures { CardsAreThoseOfTheSite }
{}

/// There are two bytes for each station: its home, or if it is its own home its up, or else the panel's 65,535.
pub fn each_card_is_home_or_up()
    ensures { EachCardIsHomeOrUp }
{}
