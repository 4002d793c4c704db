ghost use Rattle.std.specs.Prelude.{◌≡◌};
ghost use Rattle.std.specs.Option.{is_some, option_map};
ghost use Rattle.mp_schema.specs.Occurrences.{occurrences_in, first_named};
ghost use Rattle.mp_schema.specs.Faults.{are_distinct, is_like_first, occurrences_of_rule, occurrences_of_rewrite};
ghost use Rattle.mp_schema.specs.Places.{occurrence_at};

use crate::demand::Demand;
use crate::first::{first_in_pattern, first_in_patterns, first_in_schema, first_in_schemata};
use crate::place::{Use, are_alike, are_distinct_variables};
use crate::{Pattern, Schema};
use mp_logic::Sym;

/// It is applied to distinct variables.
#[derive(Clone, Copy)]
pub(crate) struct OnVariables;

impl Demand for OnVariables {
    ghost keeps = { λ demand o. are_distinct o.levels };

    fn is_kept(&self, place: Use<'_>) -> bool {
        are_distinct_variables(place.args)
    }
}

/// It is used as at its first occurrence in this rule.
#[derive(Clone, Copy)]
pub(crate) struct AsInRule<'a> {
    pub premises: &'a [Schema],
    pub concl: &'a Schema,
}

impl Demand for AsInRule<'_> {
    ghost keeps = { λ demand o. is_like_first (first_named (occurrences_of_rule demand.premises.now demand.concl.now) o.name) o };

    fn is_kept(&self, place: Use<'_>) -> bool {
        match first_in_rule(self.premises, self.concl, place.name) {
            Some(first) => are_alike(first, place),
            None => false,
        }
    }
}

// The first occurrence of the name in the text of the rule.
fn first_in_rule<'a>(premises: &'a [Schema], concl: &'a Schema, name: Sym) -> Option<Use<'a>>
    ensures { option_map occurrence_at result ≡ first_named (occurrences_of_rule premises.now concl.now) name }
{
    match first_in_schemata(premises, name) {
        Some(place) => Some(place),
        None => first_in_schema(concl, name),
    }
}

/// It is used as at its first occurrence in this rewrite.
#[derive(Clone, Copy)]
pub(crate) struct AsInRewrite<'a> {
    pub conds: &'a [Pattern],
    pub redex: &'a Pattern,
    pub contractum: &'a Pattern,
}

impl Demand for AsInRewrite<'_> {
    ghost keeps = { λ demand o. is_like_first (first_named (occurrences_of_rewrite demand.conds.now demand.redex.now demand.contractum.now) o.name) o };

    fn is_kept(&self, place: Use<'_>) -> bool {
        match first_in_rewrite(self.conds, self.redex, self.contractum, place.name) {
            Some(first) => are_alike(first, place),
            None => false,
        }
    }
}

// The first occurrence of the name in the text of the rewrite.
fn first_in_rewrite<'a>(
    conds: &'a [Pattern],
    redex: &'a Pattern,
    contractum: &'a Pattern,
    name: Sym,
) -> Option<Use<'a>>
    ensures { option_map occurrence_at result ≡ first_named (occurrences_of_rewrite conds.now redex.now contractum.now) name }
{
    if let Some(place) = first_in_patterns(conds, name) {
        return Some(place);
    }
    match first_in_pattern(redex, name) {
        Some(place) => Some(place),
        None => first_in_pattern(contractum, name),
    }
}

/// It has the name of a second-order variable of this pattern.
#[derive(Clone, Copy)]
pub(crate) struct BoundIn<'a> {
    pub redex: &'a Pattern,
}

impl Demand for BoundIn<'_> {
    ghost keeps = { λ demand o. is_some (first_named (occurrences_in demand.redex.now) o.name) };

    fn is_kept(&self, place: Use<'_>) -> bool {
        first_in_pattern(self.redex, place.name).is_some()
    }
}
