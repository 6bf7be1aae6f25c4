//! The laws of plans and sheets, each on a contract of its own.

ghost use Rattle.sheet.specs.Plans.{WithoutFaultTheEntryFits, PlansWithoutFaultAreWellFormed};
ghost use Rattle.sheet.specs.Encoding.{ASheetIsBytes, TheLengthsOfSheets};
ghost use Rattle.sheet.specs.Decoding.{APlanWrittenAndReadIsTheSame, ASheetReadAndWrittenIsTheSame, WhatIsAcceptedIsWellFormed};
ghost use Rattle.sheet.specs.Places.{TheFirstFaultIsNamed};
ghost use Rattle.sheet.specs.Calls.{WhatIsPutIsReadBack, WhatIsReadIsPutBack};
ghost use Rattle.sheet.specs.Sites.{PlansOfSitesAreWellFormed};

/// A plan is without fault at an entry exactly if it fits and the order is as it should be there.
pub fn without_fault_the_entry_fits()
    ensures { WithoutFaultTheEntryFits }
{}

/// A plan with four lists of 1 to 512 entries is well formed exactly if it is nowhere at fault.
pub fn well_formed_is_without_fault()
    ensures { PlansWithoutFaultAreWellFormed }
{}

/// A sheet is bytes.
pub fn sheets_are_bytes()
    ensures { ASheetIsBytes }
{}

/// A sheet of n stations has 3n + 2 to 7n + 2 bytes. There are sheets as short as that, and from two stations on as long.
pub fn lengths_of_sheets()
    ensures { TheLengthsOfSheets }
{}

/// A plan that was written as a sheet and is read back is the same plan.
pub fn written_and_read_is_the_same()
    ensures { APlanWrittenAndReadIsTheSame }
{}

/// Bytes that are accepted as a sheet and written again are the same bytes.
pub fn read_and_written_is_the_same()
    ensures { ASheetReadAndWrittenIsTheSame }
{}

/// What is accepted is well formed.
pub fn accepted_is_well_formed()
    ensures { WhatIsAcceptedIsWellFormed }
{}

/// Bytes that are turned down are at fault at the place that is named.
pub fn first_fault_is_named()
    ensures { TheFirstFaultIsNamed }
{}

/// Tables that are put as a sheet are read back from it.
pub fn put_is_read_back()
    ensures { WhatIsPutIsReadBack }
{}

/// Tables that are read from a sheet are put as that sheet.
pub fn read_is_put_back()
    ensures { WhatIsReadIsPutBack }
{}

/// The plan of a lawful site of 1 to 512 stations is well formed, and its sheet is read back as that plan.
pub fn plans_of_sites_are_well_formed()
    ensures { PlansOfSitesAreWellFormed }
{}
