//! Worked sites: what the definitions give for them, each on a contract of its own.
#![tactic(auto)]

ghost use Rattle.worked.specs.Sites.{OneStation, EightStations, TwoCliquesAndABridge, OneLinkMore, OneLinkLess};

/// One station: number 0, its own home, no up.
pub fn one_station()
    ensures { OneStation }
{}

/// The eight-station site.
pub fn eight_stations()
    ensures { EightStations }
{}

/// Two cliques of four stations, and a ninth station between them.
pub fn two_cliques_and_a_bridge()
    ensures { TwoCliquesAndABridge }
{}

/// The eight-station site with one link more.
pub fn one_link_more()
    ensures { OneLinkMore }
{}

/// The eight-station site with one link less.
pub fn one_link_less()
    ensures { OneLinkLess }
{}
