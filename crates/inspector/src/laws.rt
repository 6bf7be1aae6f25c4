//! The laws of the inspector, each on a contract of its own.

ghost use Rattle.inspector.specs.Passing.{WhatPassesIsForTheSite, TheSheetOfASitePasses, PassedNumbersAreTheGreatest, EachRefusalSaysWhatIsWrong};

/// What inspect passes has the numbers, homes and ups of the site and a rightful order, and it passes every sheet that
/// has.
pub fn what_passes_is_for_the_site()
    ensures { WhatPassesIsForTheSite }
{}

/// The sheet of a site passes over it.
pub fn the_sheet_of_a_site_passes()
    ensures { TheSheetOfASitePasses }
{}

/// Each number of a sheet that passes is the greatest k for which some group holds the station and lets every member
/// hear at least k others of the group.
pub fn passed_numbers_are_the_greatest()
    ensures { PassedNumbersAreTheGreatest }
{}

/// Each refusal says what is wrong, of the lowest station for which it is.
pub fn each_refusal_says_what_is_wrong()
    ensures { EachRefusalSaysWhatIsWrong }
{}
