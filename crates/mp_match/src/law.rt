ghost use Rattle.mp_match.specs.Laws.{MatchesAreInstances, TermMatchesAreInstances, AgreeingTerms, AgreeingSequents, AgreesWithOneMore};

/// What matching finds, as laws of its functions. It does nothing: its contract is the laws.
pub fn match_laws()
    ensures sequents { MatchesAreInstances }
    ensures terms { TermMatchesAreInstances }
{}

/// That an instance is determined by what is found of it. It does nothing: its contract is the laws.
pub fn agreement_laws()
    ensures terms { AgreeingTerms }
    ensures sequents { AgreeingSequents }
    ensures more { AgreesWithOneMore }
{}
