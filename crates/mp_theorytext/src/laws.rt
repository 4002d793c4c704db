ghost use Rattle.mp_theorytext.specs.Laws.{OneSetOfRewrites, ReadTheoriesAreTheories};
ghost use Rattle.mp_theorytext.specs.Reading.{OneTheoryText, SomeTheoryText};

/// A text has one theory or one fault, and not both.
pub fn one_text()
    ensures { OneTheoryText }
{}

/// A text has a theory or a fault.
pub fn some_text()
    ensures { SomeTheoryText }
{}

/// What is read onto a theory is a theory: each of its laws is faultless, a rule needs what its premises need, and
/// no two have one name.
pub fn read_theories_are_theories()
    ensures { ReadTheoriesAreTheories }
{}

/// The static rules on a rewrite as it is written are those on the rewrite that it stands for: where each variable is bound,
/// the one has no fault exactly where the other has none.
pub fn one_set_of_rewrites()
    ensures { OneSetOfRewrites }
{}
