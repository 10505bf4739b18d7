//! Lines of nodes, and charts that are dropped, worked out. The functions are empty: their contracts are the lines.
ghost use Rattle.batch_outline.specs.RowsOfShowing.{BranchesOfSelection, FirstLine, HeldAbove, KindsBelow, LoopLine, OneUnit, OwnNeedIsNotHeld, ReservedUnitIsNotHeldAbove, ReservingAct, RoleTakesItself, TwoUnits};
ghost use Rattle.batch_outline.specs.RowsOfTrimmed.{ActIsLeftOut, ChartOfNodeStays, FirstHasNode, NameStays, OtherChartMayBeDropped, OtherTableHasNone, SecondHasNone};

pub fn shown_lines()
    ensures two_units { TwoUnits }
    ensures one_unit { OneUnit }
    ensures branches { BranchesOfSelection }
    ensures loop_line { LoopLine }
    ensures first_line { FirstLine }
    ensures held_above { HeldAbove }
    ensures own_need { OwnNeedIsNotHeld }
    ensures reserved_unit { ReservedUnitIsNotHeldAbove }
    ensures reserving_act { ReservingAct }
    ensures kinds { KindsBelow }
    ensures roles { RoleTakesItself }
{}

pub fn trimmed_acts()
    ensures first { FirstHasNode }
    ensures second { SecondHasNone }
    ensures other_table { OtherTableHasNone }
    ensures of_node { ChartOfNodeStays }
    ensures of_other { OtherChartMayBeDropped }
    ensures name { NameStays }
    ensures left_out { ActIsLeftOut }
{}
