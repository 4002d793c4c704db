ghost use Rattle.mp_term.specs.Laws.{WeakeningByNothing, WeakeningsCompose, SubstitutionAfterWeakening, WeakeningAfterSubstitution, SubstitutionLemma, SubstitutionOfVariables, WeakeningIsSubstitution, ScopeAfterWeakening, ScopeAfterSubstitution, WidthAfterWeakening, WidthAfterSubstitution, WidthOfFewBinders, GoalsAreNarrow, SizeAfterWeakening, SizeAfterSubstitution, DepthAfterSubstitution, BindersAfterWeakening, BindersAfterSubstitution};

/// The laws of weakening alone. It does nothing: its contract is the laws.
pub fn weakening_laws()
    ensures nothing { WeakeningByNothing }
    ensures composed { WeakeningsCompose }
{}

/// The laws of substitution and weakening, one after the other, the substitution lemma among them.
/// It does nothing: its contract is the laws.
pub fn substitution_laws()
    ensures after_weakening { SubstitutionAfterWeakening }
    ensures before_weakening { WeakeningAfterSubstitution }
    ensures composed { SubstitutionLemma }
    ensures identity { SubstitutionOfVariables }
    ensures weakening { WeakeningIsSubstitution }
{}

/// In which scope a result stands, and how wide its scopes are. It does nothing: its contract is the laws.
pub fn scope_laws()
    ensures weakened { ScopeAfterWeakening }
    ensures substituted { ScopeAfterSubstitution }
    ensures weakened_width { WidthAfterWeakening }
    ensures substituted_width { WidthAfterSubstitution }
    ensures width { WidthOfFewBinders }
    ensures goals { GoalsAreNarrow }
{}

/// How large a result is, how deep, and how many binders its subterms have. It does nothing: its contract is
/// the laws.
pub fn size_laws()
    ensures weakened { SizeAfterWeakening }
    ensures substituted { SizeAfterSubstitution }
    ensures substituted_depth { DepthAfterSubstitution }
    ensures weakened_binders { BindersAfterWeakening }
    ensures substituted_binders { BindersAfterSubstitution }
{}
