//! Laws over edges and ranks.
ghost use Rattle.batch_check.specs.ByName.{RanksByName, RanksRiseByName};
ghost use Rattle.batch_check.specs.Clearing.{CirclesLeaveNoClearance, CirclesLeaveNoRising, LeastRanksRise};
ghost use Rattle.batch_check.specs.LeastRanking.{CirclesLeaveNoRanking};
ghost use Rattle.batch_check.specs.RanksTold.{CertificatesTellRanks};
ghost use Rattle.batch_check.specs.Shortest.{ShortestTakeNoDetour};

/// No ranks rise along the edges of a circle.
// claim: circles forbid ranks
pub fn circle_leaves_no_ranking()
    ensures { CirclesLeaveNoRanking }
{}

/// Ranks by number and ranks by name mean the same, of resources and along edges between them.
// claim: ranks by name
pub fn ranks_are_told_by_name()
    ensures ranks { RanksByName }
    ensures rising { RanksRiseByName }
{}

/// A certificate ranks each resource once, and gives it the rank that it has.
// claim: ranks by name
pub fn certificates_tell_ranks()
    ensures { CertificatesTellRanks }
{}

/// No ranks rise along all paths of recipes in which a circle of edges stands, so no ranking clears them.
// claim: circles forbid ranks
pub fn standing_circles_leave_no_clearance()
    ensures rising { CirclesLeaveNoRising }
    ensures clearance { CirclesLeaveNoClearance }
{}

/// No two neighbouring edges of a circle with the fewest edges can be replaced by one.
// claim: no detour
pub fn shortest_circles_take_no_detour()
    ensures { ShortestTakeNoDetour }
{}

/// The least ranks along the edges of recipes, which join needs that follow one another, are the least along all their
/// paths.
// claim: ranks along paths
pub fn least_ranks_rise_along_paths()
    ensures { LeastRanksRise }
{}
