//! The laws of the levels, each on a contract of its own.

ghost use Rattle.rules.specs.Levels.{TheTopIsTheGreatestNumber, TheBottomLevelIsTheWholeSite, MembersHearInsideLinksTwiceAndBoundaryLinksOnce, EveryLevelIsWithinTheLimits};
ghost use Rattle.rules.specs.Scores.{ScoresOfNetAreBounded};
ghost use Rattle.rules.specs.Choices.{TheChoiceIsBest, OnlyOneIsChosen};

/// The top is the greatest number of a station.
pub fn top_is_greatest_number()
    ensures { TheTopIsTheGreatestNumber }
{}

/// Level 0 is the whole site.
pub fn bottom_level_is_whole_site()
    ensures { TheBottomLevelIsTheWholeSite }
{}

/// The members of a group hear each other over each inside link twice, and strangers over each boundary link once.
pub fn members_hear_inside_links_twice()
    ensures { MembersHearInsideLinksTwiceAndBoundaryLinksOnce }
{}

/// The counts of every level are within the limits of a tally.
pub fn levels_are_within_limits()
    ensures { EveryLevelIsWithinTheLimits }
{}

/// The scores of `Net` are bounded, as its weights and the counts of a tally are.
pub fn scores_of_net_are_bounded()
    ensures { ScoresOfNetAreBounded }
{}

/// The level that is chosen has a tally, no level scores above it, and it is the greatest of those that score level with
/// it.
pub fn choice_is_best<Score>()
    ensures { TheChoiceIsBest Score }
{}

/// No other level is so.
pub fn only_one_is_chosen<Score>()
    ensures { OnlyOneIsChosen Score }
{}
