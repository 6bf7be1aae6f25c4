//! The laws of the definitions, each on a contract of its own.

ghost use Rattle.cores.specs.Counting.{AllAndSomeLookAtEach, ACountIsHowManyPass, ATotalIsTheSumOfAll, AListHoldsWhatStandsInIt, TheGreatestIsTheLastThatPasses};
ghost use Rattle.cores.specs.Laws.{TheLowestIsTheFirstThatPasses, EachLinkHasTwoEnds};
ghost use Rattle.cores.specs.Site.{SameSizeAndLinksMakeTheSameSite};
ghost use Rattle.cores.specs.Numbers.{TheSearchTriesEveryGroup, TheCoreSetIsTheLargestSteadyGroup, CoreSetsAreNested, TheNumberIsTheGreatest, TheCoreSetIsByNumber, NumbersAreBelowTheSize};
ghost use Rattle.cores.specs.Forest.{ConnectedMeansAChain, ConnectedCoresPartTheCoreSet, TheHomeIsTheLowestOfItsCore, TheUpIsTheNearestHomeBelow};
ghost use Rattle.cores.specs.Drawing.{TheDrawnOrderRemovesTheFewestFirst, NumbersAreTheGreatestCountsMet};
ghost use Rattle.cores.specs.Orders.{RightfulHoldsAtEachPlace, TheDrawnOrderIsRightful, AfterIsTheRestBehind, AtFaultIsJudgedAtItsPlace, FaultlessMeansCoreNumbersInARightfulOrder};
ghost use Rattle.cores.specs.ByNumbers.{ConnectedByNumbersMeansAChain, TheHomeByNumbersIsTheLowestOfItsCore, TheUpByNumbersIsTheNearestHomeBelow, ByCoreNumbersTheyAreThoseOfTheSite};
ghost use Rattle.cores.specs.Links.{MovingIsHavingAnotherNumber, OneLinkMoreLiftsByOne, OneLinkLessLowersByOne, OneLinkMoreOrLessIsLawful, OneLinkMoreAndLessUndoEachOther};

/// All numbers pass a test if each does, and some do if one does.
pub fn all_and_some_look_at_each()
    ensures { AllAndSomeLookAtEach }
{}

/// A count is how many numbers pass a test.
pub fn count_is_how_many_pass()
    ensures { ACountIsHowManyPass }
{}

/// A total is the sum of all values.
pub fn total_is_the_sum_of_all()
    ensures { ATotalIsTheSumOfAll }
{}

/// A list holds what stands in it.
pub fn list_holds_what_stands_in_it()
    ensures { AListHoldsWhatStandsInIt }
{}

/// The lowest number that passes a test is the first that does.
pub fn lowest_is_first()
    ensures { TheLowestIsTheFirstThatPasses }
{}

/// The greatest number that passes a test is the last that does.
pub fn greatest_is_last()
    ensures { TheGreatestIsTheLastThatPasses }
{}

/// The neighbour counts add up to twice the links.
pub fn links_have_two_ends()
    ensures { EachLinkHasTwoEnds }
{}

/// Two sites of one size with the same links are the same site.
pub fn same_links_same_site()
    ensures { SameSizeAndLinksMakeTheSameSite }
{}

/// The search over groups finds one exactly if one passes.
pub fn search_tries_every_group()
    ensures { TheSearchTriesEveryGroup }
{}

/// The k-core set is the largest group in which every member hears at least k members.
pub fn core_set_is_largest()
    ensures { TheCoreSetIsTheLargestSteadyGroup }
{}

/// Core sets are nested, from the whole site inwards.
pub fn core_sets_are_nested()
    ensures { CoreSetsAreNested }
{}

/// The number of a station is the greatest k for which some group holds it and lets every member hear at least k
/// others of the group.
pub fn number_is_greatest()
    ensures { TheNumberIsTheGreatest }
{}

/// The k-core set is all stations of number k or more.
pub fn core_set_is_by_number()
    ensures { TheCoreSetIsByNumber }
{}

/// A number is below the station count.
pub fn numbers_are_below_the_size()
    ensures { NumbersAreBelowTheSize }
{}

/// Connected at k means that a chain of any length inside the k-core set leads from one to the other.
pub fn connected_means_a_chain()
    ensures { ConnectedMeansAChain }
{}

/// Connected cores part the core set.
pub fn connected_cores_part_the_core_set()
    ensures { ConnectedCoresPartTheCoreSet }
{}

/// The home is the lowest station of the same number in the connected core, and its own home.
pub fn home_is_lowest_of_its_core()
    ensures { TheHomeIsTheLowestOfItsCore }
{}

/// The up of a home is the home of the nearest core around it that has one.
pub fn up_is_nearest_home_below()
    ensures { TheUpIsTheNearestHomeBelow }
{}

/// The drawn order, and no other list, removes the station with the fewest neighbours left, the lowest of equals.
pub fn drawn_removes_fewest_first()
    ensures { TheDrawnOrderRemovesTheFewestFirst }
{}

/// A number is the greatest count of neighbours left that is met in the drawn order up to its station.
pub fn numbers_are_greatest_counts_met()
    ensures { NumbersAreTheGreatestCountsMet }
{}

/// Rightful says the same place by place.
pub fn rightful_at_each_place()
    ensures { RightfulHoldsAtEachPlace }
{}

/// The drawn order is rightful for the core numbers.
pub fn drawn_is_rightful()
    ensures { TheDrawnOrderIsRightful }
{}

/// What comes after a station is the rest of the order behind it.
pub fn after_is_the_rest_behind()
    ensures { AfterIsTheRestBehind }
{}

/// Whether a station is at fault is judged at its place in the order.
pub fn at_fault_is_judged_at_its_place()
    ensures { AtFaultIsJudgedAtItsPlace }
{}

/// No station is at fault exactly for the core numbers and an order that is rightful for them.
pub fn faultless_means_core_numbers()
    ensures { FaultlessMeansCoreNumbersInARightfulOrder }
{}

/// Connected at k by a table of numbers means that a chain of stations that have k or more leads from one to the other.
pub fn connected_by_numbers_means_a_chain()
    ensures { ConnectedByNumbersMeansAChain }
{}

/// The home by a table of numbers is the lowest station of the same number in the core by that table, and its own home.
pub fn home_by_numbers_is_lowest_of_its_core()
    ensures { TheHomeByNumbersIsTheLowestOfItsCore }
{}

/// The up of a home by a table of numbers is the home of the nearest core by that table around it that has one.
pub fn up_by_numbers_is_nearest_home_below()
    ensures { TheUpByNumbersIsTheNearestHomeBelow }
{}

/// By the core numbers, homes and ups are those of the site.
pub fn core_numbers_give_homes_and_ups()
    ensures { ByCoreNumbersTheyAreThoseOfTheSite }
{}

/// Moving is having another number.
pub fn moving_is_having_another_number()
    ensures { MovingIsHavingAnotherNumber }
{}

/// With one link more, whoever moves had the smaller number of the ends, goes up by one, and hangs on a moved end.
pub fn link_more_lifts_by_one()
    ensures { OneLinkMoreLiftsByOne }
{}

/// With one link less, whoever moves had the smaller number of the ends, goes down by one, and hangs on a moved end.
pub fn link_less_lowers_by_one()
    ensures { OneLinkLessLowersByOne }
{}

/// One link more or less keeps a site lawful.
pub fn link_more_or_less_is_lawful()
    ensures { OneLinkMoreOrLessIsLawful }
{}

/// One link more and one link less undo each other.
pub fn more_and_less_undo_each_other()
    ensures { OneLinkMoreAndLessUndoEachOther }
{}
