ghost use Rattle.mp_steptext.specs.Round.{PrintedStepIsRead};

/// What `push_just` writes of a justification that a theory allows and a script can say is read again as that justification,
/// without a fault, wherever it stands and whatever follows it that ends a step. It holds by each table of names that extends
/// the one it is printed by.
pub fn step_round_trip_law()
    ensures { PrintedStepIsRead }
{}
