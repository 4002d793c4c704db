ghost use Rattle.mp_rewrite.specs.Laws.{RewriteLaw, OneRewriting, GoodRewriting, CountOfRewriting, GoodOutcomes};

/// A law, and no work: a step by a rewrite without fault on a good goal gives subgoals exactly where some instance gives the
/// subterm at the address as the redex and they are that instance's, each within the limits. It is refused with `BadAddress`
/// exactly where there is no such place or subterm; else with `UnderBinder` exactly where the rewrite has a condition and the
/// address passes a binder; else with `NoMatch` exactly where no instance gives the subterm; and with `TooLarge` exactly where
/// some subgoal isn't within the limits. There is at most one list of subgoals, with one more than the rewrite has
/// conditions, and they are good where they are within the limits.
pub fn rewrite_law()
    ensures steps { RewriteLaw }
    ensures one { OneRewriting }
    ensures good { GoodRewriting }
    ensures count { CountOfRewriting }
    ensures outcomes { GoodOutcomes }
{}
