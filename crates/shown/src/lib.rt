//! Worked sites: what the definitions give for them, in one list.
#![tactic(auto)]

ghost use Rattle.shown.specs.Sites.{WorkedSites};

/// All that is shown of the worked sites.
pub fn worked_sites()
    ensures { WorkedSites }
{}
