//! Event lines and lines of the record, worked out, and the limits of event lines. The functions are empty: their contracts are the
//! lines and the limits.
ghost use Rattle.std.specs.Prelude.{◌≡◌};
ghost use Rattle.batch_recipe.specs.declared.role.TheConstants.{MAX_ROLES};
ghost use Rattle.batch_wire.specs.RowsOfLines.{BoundRoles, RoleBoundTwice, RoleWithoutUnit, FifthRole};
ghost use Rattle.batch_wire.specs.RowsOfText.{SentCommand, HandedValues, AskedUnits, ReleasedUnit, PassedUnit, CreatedReply, PlainReply, CommandReply, RemoveReply, FaultReply, RefusedReport, RefusedOutput, RefusedLeavingOut, RefusedBinding, RefusedValue, RefusedRemoval};
ghost use Rattle.batch_wire.specs.declared.event_line.TheConstants.{MAX_LINE_LEN};
ghost use Rattle.batch_wire.specs.declared.report_line.TheConstants.{MAX_PAIRS};

// claim: worked lines
pub fn create_lines()
    ensures bound_roles { BoundRoles }
    ensures role_bound_twice { RoleBoundTwice }
    ensures role_without_unit { RoleWithoutUnit }
    ensures fifth_role { FifthRole }
{}

// claim: worked lines
pub fn record_lines()
    ensures sent_command { SentCommand }
    ensures handed_values { HandedValues }
    ensures asked_units { AskedUnits }
    ensures released_unit { ReleasedUnit }
    ensures passed_unit { PassedUnit }
    ensures created_reply { CreatedReply }
    ensures plain_reply { PlainReply }
    ensures command_reply { CommandReply }
    ensures remove_reply { RemoveReply }
    ensures fault_reply { FaultReply }
    ensures refused_report { RefusedReport }
    ensures refused_output { RefusedOutput }
    ensures refused_leaving_out { RefusedLeavingOut }
    ensures refused_binding { RefusedBinding }
    ensures refused_value { RefusedValue }
    ensures refused_removal { RefusedRemoval }
{}

// claim: most pairs (pairs, roles)
pub fn line_limits_are_fixed()
    // claim: longest line
    ensures line { MAX_LINE_LEN ≡ 1024 }
    ensures pairs { MAX_PAIRS ≡ 16 }
    ensures roles { MAX_ROLES ≡ 4 }
{}
