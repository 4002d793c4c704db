//! Terms and sequents: their measures, their scopes and their copies; weakening, substitution and renaming.
ghost use Rattle.std.specs.Prelude.{◌≡◌, ◌<◌, ◌∷◌, [], nat_eq, All, IfSome};
ghost use Rattle.std.specs.List.{IsDistinct};

use crate::guards::is_small;
use crate::rows::Node::{Chain, Num, Op, Under, Var};
use crate::rows::{Line, Node, goal, term, terms};
use crate::table::check;
use mp_logic::NoMemory;
use mp_subst::{Levels, substitute, unrename, weaken};
use mp_term::{
    Sequent, Term, Weight, copy, copy_sequent, depth, few_binders, in_scope, same, same_sequent,
    sequent_few_binders, sequent_in_scope, size, weigh, within_limits,
};
use std::alloc::Global;
use std::test::Fail;

const NAT: Node = Op('n', &[]);

// all{nat; x. r{the first variable; x}} in scope 2.
const ALL: Node = Op('!', &[NAT, Under(1, &Op('r', &[Var(0), Var(2)]))]);

// ## Measures

/// A term, its size and its depth, whether it is in scope 2 and in scope 1, and whether it has few binders.
type Measured = (Node, u64, u64, [bool; 2], bool);

static MEASURED: [Measured; 5] = [
    (ALL, 5, 3, [true, false], true),
    (Num(7), 1, 1, [true, true], true),
    (Var(1), 1, 1, [true, false], true),
    (Op('p', &[Under(8, &Var(0))]), 2, 2, [true, true], true),
    (Op('p', &[Under(9, &Var(0))]), 2, 2, [true, true], false),
];

/// Whether the term has the measures of the row, size and depth in one walk and in two.
fn has_measures(t: &Term, row: &Measured) -> bool {
    let (_, nodes, levels, scoped, few) = row;
    let weight = Weight {
        size: *nodes,
        depth: *levels,
    };
    let is_weighed = size(t) == *nodes && depth(t) == *levels && weigh(t) == weight;
    let is_scoped = [in_scope(t, 2), in_scope(t, 1)] == *scoped;
    is_weighed && is_scoped && few_binders(t) == *few
}

fn is_copied(alloc: Global, t: &Term) -> bool {
    match copy(alloc, t) {
        Ok(copied) => same(t, &copied),
        Err(NoMemory) => false,
    }
}

/// Whether the term is measured and copied as is due.
fn is_measured(alloc: Global, row: &Measured) -> Option<bool> {
    let t = term(alloc, &row.0)?;
    Some(has_measures(&t, row) && is_copied(alloc, &t))
}

#[test]
fn a_term_is_measured_and_copied(rt: HostRuntime) -> Result<(), Fail> {
    for (place, row) in MEASURED.iter().enumerate() {
        check(place, is_measured(rt.alloc(), row))?;
    }
    Ok(())
}

static UNLIKE: [(Node, Node); 5] = [
    (Num(7), Num(8)),
    (Var(0), Var(1)),
    (Op('p', &[]), Op('q', &[])),
    (Op('p', &[NAT]), Op('p', &[NAT, NAT])),
    (Op('p', &[Under(1, &NAT)]), Op('p', &[Under(2, &NAT)])),
];

fn are_unlike(alloc: Global, row: &(Node, Node)) -> Option<bool> {
    let first = term(alloc, &row.0)?;
    let second = term(alloc, &row.1)?;
    Some(!same(&first, &second))
}

#[test]
fn terms_with_other_parts_are_not_the_same(rt: HostRuntime) -> Result<(), Fail> {
    for (place, row) in UNLIKE.iter().enumerate() {
        check(place, are_unlike(rt.alloc(), row))?;
    }
    Ok(())
}

/// A goal, and whether it is in scope, within the limits, and has few binders.
type Tested = (Line, bool, bool, bool);

static TESTED: [Tested; 5] = [
    (&[NAT, Var(0), ALL], true, true, true),
    (&[Var(0), Var(0)], false, true, true),
    (&[Chain(199)], true, true, true),
    (&[Chain(200)], true, false, true),
    (&[Op('p', &[Under(9, &NAT)])], true, true, false),
];

fn is_sequent_copied(alloc: Global, s: &Sequent) -> bool {
    match copy_sequent(alloc, s) {
        Ok(copied) => same_sequent(s, &copied),
        Err(NoMemory) => false,
    }
}

/// Whether the tests answer what is due.
fn has_answers(s: &Sequent, row: &Tested) -> bool {
    let (_, scoped, within, few) = row;
    let is_scoped = sequent_in_scope(s) == *scoped;
    is_scoped && within_limits(s) == *within && sequent_few_binders(s) == *few
}

/// Whether the goal is tested and copied as is due.
fn is_tested(alloc: Global, row: &Tested) -> Option<bool> {
    let s = goal(alloc, row.0)?;
    Some(has_answers(&s, row) && is_sequent_copied(alloc, &s))
}

#[test]
fn a_sequent_is_tested_and_copied(rt: HostRuntime) -> Result<(), Fail> {
    for (place, row) in TESTED.iter().enumerate() {
        check(place, is_tested(rt.alloc(), row))?;
    }
    Ok(())
}

// ## Substitution

/// A term, its scope, the number of variables that it is moved by or the scope that it comes into, and what it becomes.
type Moved = (Node, u32, u32, Node);

fn weakened(alloc: Global, t: &Term, n: u32, k: u32) -> Option<Term> {
    if !is_small(t, n) || k > 1000 {
        return None;
    }
    weaken(alloc, t, n, k).ok()
}

fn substituted(alloc: Global, t: &Term, n: u32, by: &[Term], m: u32) -> Option<Term> {
    if !is_small(t, n) || by.len() != n as usize || m >= 1000 {
        return None;
    }
    for term in by {
        if !is_small(term, m) {
            return None;
        }
    }
    substitute(alloc, t, n, by, m).ok()
}

fn unrenamed(alloc: Global, t: &Term, n: u32, levels: &Levels) -> Option<Option<Term>>
    requires distinct { IsDistinct nat_eq levels.now }
    requires below { All (λ level. level < n) levels.now }
{
    if !is_small(t, n) {
        return None;
    }
    unrename(alloc, t, n, levels).ok()
}

/// Whether the term was made, and is this one.
fn is_made(alloc: Global, made: Option<Term>, due: &Node) -> Option<bool> {
    let made = made?;
    let due = term(alloc, due)?;
    Some(same(&made, &due))
}

// lam over its own variable, in scope 1, and after two variables more.
static MOVED: Moved = (
    Op('l', &[Under(1, &Var(1))]),
    1,
    2,
    Op('l', &[Under(1, &Var(3))]),
);

fn is_moved(alloc: Global) -> Option<bool> {
    let (before, n, k, after) = &MOVED;
    let before = term(alloc, before)?;
    is_made(alloc, weakened(alloc, &before, *n, *k), after)
}

#[test]
fn weakening_moves_the_bound_variable(rt: HostRuntime) -> Result<(), Fail> {
    check(0, is_moved(rt.alloc()))
}

// The first variable, and f{the first variable; lam over its binder's variable}, in scope 1.
static BY: [Node; 2] = [Var(0), Op('f', &[Var(0), Op('l', &[Under(1, &Var(1))])])];

// all{nat; x. r{the second variable; x}} in scope 2, and what becomes of it in scope 1.
static REPLACED: Moved = (
    Op('!', &[NAT, Under(1, &Op('r', &[Var(1), Var(2)]))]),
    2,
    1,
    Op(
        '!',
        &[
            NAT,
            Under(
                1,
                &Op(
                    'r',
                    &[Op('f', &[Var(0), Op('l', &[Under(1, &Var(2))])]), Var(1)],
                ),
            ),
        ],
    ),
);

fn is_replaced(alloc: Global) -> Option<bool> {
    let (before, n, m, after) = &REPLACED;
    let by = terms(alloc, &BY)?;
    let made = substituted(alloc, &term(alloc, before)?, *n, by.as_slice(), *m);
    is_made(alloc, made, after)
}

#[test]
fn substitution_weakens_under_the_binder(rt: HostRuntime) -> Result<(), Fail> {
    check(0, is_replaced(rt.alloc()))
}

// p{the third variable; the first one}, where both are listed, the third one first, and not all.
static RENAMED: (Node, Node) = (Op('p', &[Var(2), Var(0)]), Op('p', &[Var(0), Var(1)]));

fn one_level(alloc: Global) -> Option<Levels>
    ensures { IfSome result (λ levels. levels ≡ 2 ∷ []) }
{
    let mut levels = Levels::new(alloc);
    levels.push(2).ok()?;
    Some(levels)
}

fn two_levels(alloc: Global) -> Option<Levels>
    ensures { IfSome result (λ levels. levels ≡ 2 ∷ 0 ∷ []) }
{
    let mut levels = one_level(alloc)?;
    levels.push(0).ok()?;
    Some(levels)
}

fn is_unrenamed(alloc: Global, renamed: &Term) -> Option<bool> {
    let levels = two_levels(alloc)?;
    is_made(alloc, unrenamed(alloc, renamed, 3, &levels)?, &RENAMED.1)
}

fn is_not_unrenamed(alloc: Global, renamed: &Term) -> Option<bool> {
    let levels = one_level(alloc)?;
    Some(unrenamed(alloc, renamed, 3, &levels)?.is_none())
}

fn are_unrenamed(alloc: Global) -> Option<bool> {
    let renamed = term(alloc, &RENAMED.0)?;
    Some(is_unrenamed(alloc, &renamed)? && is_not_unrenamed(alloc, &renamed)?)
}

#[test]
fn unrenaming_gives_the_places_of_the_levels(rt: HostRuntime) -> Result<(), Fail> {
    check(0, are_unrenamed(rt.alloc()))
}
