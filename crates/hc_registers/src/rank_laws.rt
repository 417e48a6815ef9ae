//! Laws that follow from the definitions. Each function here does nothing, and its contract is a law. Nobody calls it.
ghost use Rattle.hc_registers.specs.RankLaws.{DeclaredGroupsAddEmptyPlaces, MembersHavePlaces, PlacesHoldTheLine, RankedAreMoved};

/// The sixteen places of each declared slave, read one after another, give the blocks of a project's line, in line and block
/// order.
pub fn places_hold_the_line()
    ensures { PlacesHoldTheLine }
{}

/// Each slave of a line has its blocks at its places, each at its number's place, and nothing at the others.
pub fn members_have_places()
    ensures { MembersHavePlaces }
{}

/// The moved blocks that are reported with their ranks are the definition's, in line and block order.
pub fn ranked_are_moved()
    ensures { RankedAreMoved }
{}

/// A group that is declared, absent, adds sixteen empty places for each of its slaves after those of the others.
pub fn declared_groups_add_empty_places()
    ensures { DeclaredGroupsAddEmptyPlaces }
{}
