ghost use Rattle.mp_delay.specs.Laws.{MovesCompose, TidyMovesDoTheSame, WeakeningIsAMove, MovesOfOccurrences, VariablesAreMoves, RenamingsAreUndone, RenamingsExist, RenamingsAreInjective, MovesAfterSubstitution, SizeAfterMoves, ScopeAfterMoves};

/// The laws of moves alone. It does nothing: its contract is the laws.
pub fn move_laws()
    ensures composed { MovesCompose }
    ensures tidied { TidyMovesDoTheSame }
    ensures weakening { WeakeningIsAMove }
    ensures occurrences { MovesOfOccurrences }
{}

/// What moves have to do with substitution: which moves substitute variables, and how that is undone. It does nothing:
/// its contract is the laws.
pub fn renaming_laws()
    ensures variables { VariablesAreMoves }
    ensures undone { RenamingsAreUndone }
    ensures exists { RenamingsExist }
    ensures injective { RenamingsAreInjective }
    ensures after { MovesAfterSubstitution }
{}

/// What moves keep of a term, and in which scope the moved term stands. It does nothing: its contract is the laws.
pub fn measure_laws()
    ensures size { SizeAfterMoves }
    ensures scope { ScopeAfterMoves }
{}
