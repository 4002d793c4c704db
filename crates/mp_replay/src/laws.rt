ghost use Rattle.mp_replay.specs.Laws.{OneVerdict, SomeVerdict, VerdictIsValidity};

use mp_logic::Logic;

/// A law, and no work: of a tree and a goal there is at most one verdict.
pub fn one_verdict<L: Logic>(logic: &L)
    ensures { OneVerdict (L.meaning logic.now) }
{
    let _logic = logic;
}

/// A law, and no work: of a tree that can be replayed and a goal there is a verdict.
pub fn some_verdict<L: Logic>(logic: &L)
    ensures { SomeVerdict (L.meaning logic.now) }
{
    let _logic = logic;
}

/// A law, and no work: the verdict is validity. It is Closed exactly where the tree is valid for the goal and has no open leaf,
/// OpenLeaves with their number exactly where it is valid and has some, and Bad exactly where it isn't valid.
pub fn verdict_is_validity<L: Logic>(logic: &L)
    ensures { VerdictIsValidity (L.meaning logic.now) }
{
    let _logic = logic;
}
