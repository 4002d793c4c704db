ghost use Rattle.std.specs.Prelude.{ℕ, List, Ok};
ghost use Rattle.mp_theory.specs.Tables.{IsTheory, Laws};
ghost use Rattle.mp_scripttext.specs.declared.script.Script.{Script};
ghost use Rattle.mp_scripttext.specs.Entries.{EachGood};
ghost use Rattle.mp_scripttext.specs.Laws.{StrategyIsChains};
ghost use Rattle.mp_scripttext.specs.Reading.{OneScriptText, ReadsScript, SomeScriptText};

/// What a strategy is, by cases: chains with `orelse` between each two, each of atoms and links.
pub fn strategy_cases()
    ensures { StrategyIsChains }
{}

/// In each theory a text has one script or one fault, and not both.
pub fn one_text()
    ensures { OneScriptText }
{}

/// In each theory a text has a script or a fault.
pub fn some_text()
    ensures { SomeScriptText }
{}

/// The goals of a script that is read in a theory can be evaluated.
pub fn read_goals_are_good()
    ensures { (t : Laws) (names later : List (List ℕ)) (source : List ℕ) (script : Script) → IsTheory t → ReadsScript t names source (Ok script) later → EachGood t script.entries }
{}
