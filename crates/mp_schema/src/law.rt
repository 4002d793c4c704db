ghost use Rattle.mp_schema.specs.Solutions.{OneInstance};
ghost use Rattle.mp_schema.specs.Faultless.{RulesAreFaultless, RewritesAreFaultless, FitsByOccurrences, PremisesFit, ConditionsFit};

/// What a rule and a rewrite without a fault keep. It does nothing: its contract is the laws.
pub fn faultless_laws()
    ensures rules { RulesAreFaultless }
    ensures rewrites { RewritesAreFaultless }
{}

/// Which values are in the scopes that their uses ask, where there is no fault. It does nothing: its contract is
/// the laws.
pub fn fitting_laws()
    ensures occurrences { FitsByOccurrences }
    ensures premises { PremisesFit }
    ensures conditions { ConditionsFit }
{}

/// That a goal has one instance at most. It does nothing: its contract is the law.
pub fn instance_laws()
    ensures { OneInstance }
{}
