ghost use Rattle.mp_rewrite.specs.Laws.{OneRewriting};
ghost use Rattle.mp_refiner.specs.Law.{StepLaw, UnallowedLaw, OneListOfSubgoals, SomeStepFunction, OneStepFunction, StepFunctionsAreLogics};

/// A law, and no work: a step by an allowed justification on a good goal has exactly the outcome that instances say.
///
/// A rule gives subgoals exactly where they are the instances of the premises by some instance that has the goal as the
/// conclusion and the needs as they are given, and each is within the limits. It is refused with `NoMatch` exactly where no
/// instance has the goal as the conclusion; with `BadArgument` exactly where some has, and none with the needs as they are
/// given; and with `TooLarge` exactly where some subgoal isn't within the limits. What a rewrite gives and refuses
/// `rewrite_law` says. A justification that isn't allowed gives no subgoals. A law of a theory gives any goal of at most 200
/// hypotheses at most one list of subgoals for the same arguments.
///
/// So all step functions of a theory agree on allowed justifications and good goals, and the refiner's is one of them: what
/// is said of any of them needs no word of how a step is found.
pub fn step_law()
    ensures steps { StepLaw }
    ensures unallowed { UnallowedLaw }
    ensures one { OneListOfSubgoals }
    ensures one_rewriting { OneRewriting }
    ensures some_function { SomeStepFunction }
    ensures one_function { OneStepFunction }
    ensures logics { StepFunctionsAreLogics }
{}
