ghost use Rattle.mp_theory.specs.Laws.{RulesOfTheories, PlacesOfNames, NamesOfPlaces, AddedRulesStand, RewritesOfTheories, PlacesOfRewrites, NamesOfRewrites, AddedRewritesStand, TakenNames, TheoriesGrow, WidthIsEnough};

/// What is looked up in a theory, also after a law is added. It does nothing: its contract is the laws.
pub fn theory_laws()
    ensures rules { RulesOfTheories }
    ensures places { PlacesOfNames }
    ensures names { NamesOfPlaces }
    ensures stand { AddedRulesStand }
    ensures rewrites { RewritesOfTheories }
    ensures rewrite_places { PlacesOfRewrites }
    ensures rewrite_names { NamesOfRewrites }
    ensures rewrites_stand { AddedRewritesStand }
    ensures taken { TakenNames }
    ensures theories { TheoriesGrow }
    ensures width { WidthIsEnough }
{}
