ghost use Rattle.mp_treetext.specs.Reading.{OneTreesText, ReadTreesAreGood, ReadTreesArePrinted, SomeTreesText};

/// In each theory and for given goals a text has one list of blocks or one fault, and not both.
pub fn one_trees_text()
    ensures { OneTreesText }
{}

/// In each theory and for given goals a text has a list of blocks or a fault.
pub fn some_trees_text()
    ensures { SomeTreesText }
{}

/// The blocks that are read in a theory can be checked, and there is one for each goal.
pub fn read_trees_are_good()
    ensures { ReadTreesAreGood }
{}

/// A text that is read is the printed one of what is read.
pub fn read_trees_are_printed()
    ensures { ReadTreesArePrinted }
{}
