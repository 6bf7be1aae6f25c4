//! The laws of the definitions, each on a contract of its own.

ghost use Rattle.view.specs.Laws.{StationsOffTheSiteHaveNoNeighbours, TheCheckJudgesInWords, TheCheckOfBitsJudgesInWords, MarksStandApart, NoMarkIsSetAtFirst, StruckStationsStandAlone, StrikingTwiceStrikesBoth};

/// A station at or past the station count has no neighbours.
pub fn off_site_alone()
    ensures { StationsOffTheSiteHaveNoNeighbours }
{}

/// The check of a listing judges as the rules say in words.
pub fn check_in_words()
    ensures { TheCheckJudgesInWords }
{}

/// The check of a grid judges as the rules say in words.
pub fn check_of_bits_in_words()
    ensures { TheCheckOfBitsJudgesInWords }
{}

/// A mark is set or cleared alone.
pub fn marks_stand_apart()
    ensures { MarksStandApart }
{}

/// No mark is set at first.
pub fn no_mark_is_set_at_first()
    ensures { NoMarkIsSetAtFirst }
{}

/// A struck station has no neighbours, and its number is 0.
pub fn struck_stations_stand_alone()
    ensures { StruckStationsStandAlone }
{}

/// A struck view of a struck view strikes the stations of both lists.
pub fn striking_twice_strikes_both()
    ensures { StrikingTwiceStrikesBoth }
{}
