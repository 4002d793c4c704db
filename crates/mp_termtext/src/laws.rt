ghost use Rattle.mp_termtext.specs.Laws.{BoundByCases, ParamsByCases, SequentByCases, SubsByCases, TermByCases};
ghost use Rattle.mp_termtext.specs.Reading.{OneTermText, OneSequentText, SomeTermText, SomeSequentText};
ghost use Rattle.mp_termtext.specs.Round.{PrintedSequentIsRead, PrintedTermIsRead};

/// What terms, parameters, subterms and sequents are as they are written, by cases.
pub fn grammar_cases()
    ensures term { TermByCases }
    ensures params { ParamsByCases }
    ensures subs { SubsByCases }
    ensures bound { BoundByCases }
    ensures sequent { SequentByCases }
{}

/// A text has one value or one fault, and not both.
pub fn one_text()
    ensures term { OneTermText }
    ensures sequent { OneSequentText }
{}

/// A text has a value or a fault.
pub fn some_text()
    ensures term { SomeTermText }
    ensures sequent { SomeSequentText }
{}

/// What `print_term` and `print_sequent` write of a value that is in its scope and within the limits, whose
/// operators are named by names that begin with a small letter and whose parameters can be written, is read
/// again as that value: no fault is found in it. It holds by each table that extends the one it is printed by.
pub fn round_trip_law()
    ensures term { PrintedTermIsRead }
    ensures sequent { PrintedSequentIsRead }
{}
