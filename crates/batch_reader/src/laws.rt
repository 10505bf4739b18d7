//! Worked faults of documents.
ghost use Rattle.batch_reader.specs.RowsOfFaults.{UnitLacksItsName, NoSecondUnitLacksOne, UnitLacksNoOtherKey, NoKeyIsUnknown, UnitBesideRoleIsUnknown, RoleAloneIsKnown, NeitherIsMissing, SecondNeedIsNone, NoOtherNeedIsTold, UnitsAreTold, FirstByteIsGood, NoTurnsAreTold, NoTurnsAreShort, FirstModuleIsUndeclared, NoLaterModuleIsTold, NoNameIsUndeclared, ReportIsNoReserve, PhaseHasNoChart, CountsAreTold, ReserveIsUndeclared, ReserveIsDeclared, ReserveStandsTwice};

/// Worked rows:
///
/// - `[[unit]]` without `name`: this key is missing in the first unit, and no other; no other unit is reported, and no key is unknown;
/// - a unit procedure has `unit` or `role`, and not both;
/// - of the needs `STEAM`, `2*STEAM` and `*2` the second is the first that is none; a need is of 1 to 1,000 units;
/// - the fault of `seq(ADD`, which lacks its end, isn't at the first byte;
/// - the number of `loop(0,P>1,skip)` is out of its limits at byte 5 alone, and its text isn't too long;
/// - the first module with an undeclared unit is reported at its key `unit`, and no later one;
/// - an undeclared or repeated report isn't at the key `reserves`, and no undeclared name of a phase step at `chart`;
/// - one table too many is reported at its number;
/// - a reserved unit procedure is declared, and reserved once, or the fault is at the key `reserves`.
// claim: worked faults
pub fn worked_faults()
    ensures missing { UnitLacksItsName }
    ensures no_second { NoSecondUnitLacksOne }
    ensures no_other { UnitLacksNoOtherKey }
    ensures known { NoKeyIsUnknown }
    ensures beside_role { UnitBesideRoleIsUnknown }
    ensures role_alone { RoleAloneIsKnown }
    ensures neither { NeitherIsMissing }
    ensures second_need { SecondNeedIsNone }
    ensures no_other_need { NoOtherNeedIsTold }
    ensures units { UnitsAreTold }
    ensures first_byte { FirstByteIsGood }
    ensures no_turns { NoTurnsAreTold }
    ensures short { NoTurnsAreShort }
    ensures undeclared { FirstModuleIsUndeclared }
    ensures no_later { NoLaterModuleIsTold }
    ensures no_name { NoNameIsUndeclared }
    ensures no_reserve { ReportIsNoReserve }
    ensures no_chart { PhaseHasNoChart }
    ensures counts { CountsAreTold }
    ensures undeclared_reserve { ReserveIsUndeclared }
    ensures declared_reserve { ReserveIsDeclared }
    ensures reserve_twice { ReserveStandsTwice }
{}
