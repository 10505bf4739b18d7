//! Worked rows of documents of desks.
ghost use Rattle.batch_reader.specs.RowsOfDesks.{
  ConsoleIsRead,
  NoOtherLagIsRead,
  NoStayIsRead,
  StayIsRead,
  NothingIsWrong,
  OneWayIsMissing,
  UnknownKeyIsFirst,
  LagIsLimited,
  PathIsLimited,
  PathIsNamed,
  UnitIsNoDesk,
  NoDeskIsTooFew,
  SecondNameIsTold,
  OtherNamesDiffer,
  UnitIsLookedUp,
  UnitIsFound,
  AllUnitsAreFound,
};

/// Worked rows:
///
/// - a table without its optional keys stands for a desk with the usual values and for no other;
/// - a desk without input and output lacks a key;
/// - an unknown key is reported before all else;
/// - limits are checked at their ends, and a fault names its key;
/// - of two desks of one name the second is reported;
/// - a unit is looked up among those of the cell.
// claim: worked desks
pub fn worked_desks()
    ensures console { ConsoleIsRead }
    ensures no_other_lag { NoOtherLagIsRead }
    ensures no_stay { NoStayIsRead }
    ensures stay { StayIsRead }
    ensures nothing_wrong { NothingIsWrong }
    ensures one_way { OneWayIsMissing }
    ensures unknown_first { UnknownKeyIsFirst }
    ensures lag { LagIsLimited }
    ensures path { PathIsLimited }
    ensures path_named { PathIsNamed }
    ensures no_desk { UnitIsNoDesk }
    ensures too_few { NoDeskIsTooFew }
    ensures second_name { SecondNameIsTold }
    ensures other_names { OtherNamesDiffer }
    ensures looked_up { UnitIsLookedUp }
    ensures found { UnitIsFound }
    ensures all_units { AllUnitsAreFound }
{}
