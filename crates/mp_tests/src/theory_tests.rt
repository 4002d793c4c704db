//! Theories: laws that are added, refused and found, what rules need, and addresses.

use self::Added::{Rewrite, Rule};
use crate::rows::Node::{Hole, Meta, Op, Var};
use crate::rows::{Line, Node, named, pattern, patterns, schema, schemata};
use crate::table::check;
use mp_logic::Sym;
use mp_schema::SchemaFault::{UnboundParam, UnboundVar};
use mp_theory::{Address, Need, Theory, TheoryErr};
use std::alloc::Global;
use std::test::Fail;

// Schemata without items: a second-order variable, and a variable that is bound nowhere.
const A: Line = &[Meta('A', &[], &[])];

const B: Line = &[Meta('B', &[], &[])];

const C: Line = &[Meta('C', &[], &[])];

const D: Line = &[Meta('D', &[], &[])];

const FREE: Line = &[Var(0)];

// Patterns: a variable that is bound nowhere, 'A, and s{'A}.
const NOWHERE: Node = Var(0);

const PLAIN: Node = Meta('A', &[], &[]);

const OVER: Node = Op('s', &[PLAIN]);

/// A law.
enum Added {
    /// The premises of a rule, and its conclusion.
    Rule(&'static [Line], Line),
    /// The conditions of a rewrite, its redex, and its contractum.
    Rewrite(&'static [Node], &'static Node, &'static Node),
}

/// The name of a law, the law, and whether it is refused.
type Row = (char, Added, Result<(), TheoryErr>);

static RULES: [Row; 5] = [
    ('r', Rule(&[C, A, C, D, B], A), Ok(())),
    ('r', Rule(&[], FREE), Err(TheoryErr::Taken)),
    ('s', Rule(&[], FREE), Err(TheoryErr::Schema(UnboundVar))),
    ('s', Rule(&[], A), Ok(())),
    ('t', Rule(&[], A), Ok(())),
];

static LAWS: [Row; 8] = [
    ('r', Rule(&[A, B], A), Ok(())),
    // a rule's name and a rewrite's
    ('r', Rewrite(&[], &NOWHERE, &PLAIN), Err(TheoryErr::Taken)),
    ('w', Rewrite(&[PLAIN, OVER], &OVER, &PLAIN), Ok(())),
    ('w', Rule(&[], FREE), Err(TheoryErr::Taken)),
    ('w', Rewrite(&[], &NOWHERE, &PLAIN), Err(TheoryErr::Taken)),
    // two faults, of which the second is the first in their order
    (
        'x',
        Rewrite(&[Meta('B', &[], &[]), Hole('n')], &OVER, &PLAIN),
        Err(TheoryErr::Schema(UnboundParam)),
    ),
    ('x', Rewrite(&[], &OVER, &PLAIN), Ok(())),
    ('t', Rule(&[A], A), Ok(())),
];

/// A name, and the place of its rule.
static PLACES: [(char, Option<u32>); 4] = [
    ('r', Some(0)),
    ('s', Some(1)),
    ('t', Some(2)),
    ('u', None),
];

/// A place, the name of the law there, and the places of the rule and of the rewrite with this name.
type Found = (u32, char, Option<u32>, Option<u32>);

static FOUND: [Found; 5] = [
    (0, 'r', Some(0), None),
    (1, 'w', None, Some(1)),
    (2, 'x', None, Some(2)),
    (3, 't', Some(3), None),
    (4, 'u', None, None),
];

/// Adds the rule. What is refused is within.
fn add_rule(
    alloc: Global,
    theory: &mut Theory,
    name: char,
    premises: &[Line],
    concl: Line,
) -> Option<Result<(), TheoryErr>> {
    if theory.len() > 100 {
        return None;
    }
    let premises = schemata(alloc, premises)?;
    let concl = schema(alloc, concl)?;
    Some(theory.add_rule(alloc, named(name), premises, concl))
}

/// Adds the rewrite. What is refused is within.
fn add_rewrite(
    alloc: Global,
    theory: &mut Theory,
    name: char,
    conds: &[Node],
    redex: &Node,
    contractum: &Node,
) -> Option<Result<(), TheoryErr>> {
    if theory.len() > 100 {
        return None;
    }
    let conds = patterns(alloc, conds)?;
    let redex = pattern(alloc, redex)?;
    let contractum = pattern(alloc, contractum)?;
    Some(theory.add_rewrite(alloc, named(name), conds, redex, contractum))
}

/// Adds the law, and says whether it is refused as is due.
fn is_added(alloc: Global, theory: &mut Theory, row: &Row) -> Option<bool> {
    let (name, law, due) = row;
    let given = match law {
        Rule(premises, concl) => add_rule(alloc, theory, *name, *premises, *concl),
        Rewrite(conds, redex, contractum) => {
            add_rewrite(alloc, theory, *name, *conds, *redex, *contractum)
        }
    };
    Some(given? == *due)
}

fn add_all(alloc: Global, theory: &mut Theory, rows: &[Row]) -> Result<(), Fail> {
    for (place, row) in rows.iter().enumerate() {
        check(place, is_added(alloc, theory, row))?;
    }
    Ok(())
}

/// Whether there are three rules, each at its place.
fn have_places(theory: &Theory) -> Result<(), Fail> {
    for (place, (name, due)) in PLACES.iter().enumerate() {
        check(place, Some(theory.rule_named(named(*name)) == *due))?;
    }
    check(
        PLACES.len(),
        Some(theory.len() == 3 && theory.rule(3).is_none()),
    )
}

#[test]
fn a_name_is_taken_before_a_fault_is_looked_for(rt: HostRuntime) -> Result<(), Fail> {
    let mut theory = Theory::new(rt.alloc());
    add_all(rt.alloc(), &mut theory, &RULES)?;
    have_places(&theory)
}

/// Whether the place and the name are those of a rule or of a rewrite alone, as is due.
fn is_found(theory: &Theory, row: &Found) -> bool {
    let (place, name, rule, rewrite) = row;
    theory.rule_named(named(*name)) == *rule
        && theory.rewrite_named(named(*name)) == *rewrite
        && theory.rule(*place).is_some() == rule.is_some()
        && theory.rewrite(*place).is_some() == rewrite.is_some()
}

fn are_found(theory: &Theory) -> Result<(), Fail> {
    for (place, row) in FOUND.iter().enumerate() {
        check(place, Some(is_found(theory, row)))?;
    }
    Ok(())
}

/// Whether the rewrite with two conditions is as it was added.
fn is_whole(theory: &Theory) -> Option<bool> {
    let rewrite = theory.rewrite(1)?;
    Some(rewrite.name == named('w') && rewrite.conds.len() == 2)
}

/// Adds the laws to a theory without laws, and looks for each.
fn find_laws(alloc: Global, theory: &mut Theory) -> Result<(), Fail> {
    check(LAWS.len(), Some(theory.width() == 0))?;
    add_all(alloc, theory, &LAWS)?;
    // two conditions and the rewritten goal are one more than two premises
    check(LAWS.len(), Some(theory.width() == 3))?;
    check(FOUND.len(), is_whole(theory))?;
    are_found(theory)
}

#[test]
fn rules_and_rewrites_are_found_as_what_they_are(rt: HostRuntime) -> Result<(), Fail> {
    let mut theory = Theory::new(rt.alloc());
    find_laws(rt.alloc(), &mut theory)
}

/// The names of what is needed.
fn names_of(alloc: Global, needs: &[Need]) -> Option<Vec<Sym>> {
    let mut names = Vec::new(alloc);
    for need in needs {
        names.push(need.name).ok()?;
    }
    Some(names)
}

/// Whether the first rule needs C, D and B, in the order of their first occurrence.
fn is_needed(alloc: Global, theory: &Theory) -> Option<bool> {
    let rule = theory.rule(0)?;
    let names = names_of(alloc, rule.needs.as_slice())?;
    Some(names.as_slice() == [named('C'), named('D'), named('B')].as_slice())
}

#[test]
fn needs_stand_in_the_order_of_their_first_occurrence(rt: HostRuntime) -> Result<(), Fail> {
    let mut theory = Theory::new(rt.alloc());
    add_all(rt.alloc(), &mut theory, &RULES)?;
    check(0, is_needed(rt.alloc(), &theory))
}

// ## Addresses

/// The address of the term itself, and the longest that takes no allocation and one that is longer.
static ADDRESSES: [&[u32]; 3] = [
    &[],
    &[7, 0, 6, 1, 5, 2, 4, 3],
    &[7, 0, 6, 1, 5, 2, 4, 3, 19999],
];

fn address(alloc: Global, steps: &[u32]) -> Option<Address> {
    let mut address = Address::new(alloc);
    for step in steps {
        address.push(*step).ok()?;
    }
    Some(address)
}

/// Whether the address and a copy of it have these steps.
fn is_address(alloc: Global, steps: &[u32]) -> Option<bool> {
    let address = address(alloc, steps)?;
    let copy = address.copy(alloc).ok()?;
    Some(address.steps() == steps && copy.steps() == steps)
}

#[test]
fn an_address_is_read_and_copied(rt: HostRuntime) -> Result<(), Fail> {
    for (place, steps) in ADDRESSES.iter().enumerate() {
        check(place, is_address(rt.alloc(), *steps))?;
    }
    Ok(())
}
