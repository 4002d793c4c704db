ghost use Rattle.mp_schematext.specs.Laws.{OneSetOfRules};

/// The static rules on a rule as it is written are those on the rule that it stands for: where each variable is bound,
/// the one has no fault exactly where the other has none.
pub fn one_set_of_rules()
    ensures { OneSetOfRules }
{}
