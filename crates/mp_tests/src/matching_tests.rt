//! Matching and building of patterns: a redex is matched, and the contractum is built of its values.

use crate::guards::{are_tame, is_small};
use crate::rows::Node::{Chain, Hole, Meta, Nested, Num, Op, Under, Var, Wide};
use crate::rows::{Node, pattern, term};
use crate::table::check;
use mp_build::{BuildErr, build_laws, build_term};
use mp_logic::List;
use mp_match::match_term;
use mp_schema::{Pattern, faultless_laws, fitting_laws, rewrite_fault};
use mp_term::{Term, same};
use std::alloc::Global;
use std::test::Fail;

/// The term that the rewrite makes of the term of this scope, or that it is too large; None within where the redex
/// doesn't match.
fn rewritten(
    alloc: Global,
    redex: &Pattern,
    contractum: &Pattern,
    scope: u32,
    t: &Term,
) -> Option<Option<Result<Term, BuildErr>>> {
    if rewrite_fault(&List::new(alloc), redex, contractum).is_some() {
        return None;
    }
    if !is_small(t, scope) {
        return None;
    }
    faultless_laws();
    let Ok(matched) = match_term(alloc, redex, scope, t) else {
        return None;
    };
    let Some(inst) = matched else {
        return Some(None);
    };
    if inst.ctxs.len() > 0 || !are_tame(&inst.metas) {
        return None;
    }
    fitting_laws();
    build_laws();
    Some(Some(build_term(alloc, contractum, &inst)))
}

const A: Node = Meta('A', &[], &[]);

const Z: Node = Op('z', &[]);

// pair{'A; x. 'A}, and pair{the second variable; x. each of three} in scope 2.
const PAIR: Node = Op('p', &[A, Under(1, &A)]);

const FIRST: Node = Op('p', &[Var(1), Under(1, &Var(0))]);

const SECOND: Node = Op('p', &[Var(1), Under(1, &Var(1))]);

const BOUND: Node = Op('p', &[Var(1), Under(1, &Var(2))]);

// app{lam{x. 'A[x]}; 'B} and 'A['B], and app{lam{x. r{x; the first variable}}; q{the second one}} in scope 2.
const REDEX: Node = Op(
    'a',
    &[
        Op('l', &[Under(1, &Meta('A', &[], &[Var(0)]))]),
        Meta('B', &[], &[]),
    ],
);

const REDUCED: Node = Meta('A', &[], &[Meta('B', &[], &[])]);

const APPLIED: Node = Op('a', &[Op('l', &[Under(1, &Op('r', &[Var(2), Var(0)]))]), Q]);

const Q: Node = Op('q', &[Var(1)]);

// f{x. 'A[x]; y. 'B[y]}, and such terms where 'A is twice its variable, and 'B its variable or a constant.
const TWO: Node = Op(
    'f',
    &[
        Under(1, &Meta('A', &[], &[Var(0)])),
        Under(1, &Meta('B', &[], &[Var(0)])),
    ],
);

const TWICE: Node = Under(1, &Op('p', &[Var(0), Var(0)]));

const HUGE: Node = Op('f', &[TWICE, Under(1, &Var(0))]);

const SMALL: Node = Op('f', &[TWICE, Under(1, &Z)]);

// g{'A}, and twice 'A with one constant or two.
const ONE: Node = Op('g', &[A]);

const DOUBLE: Node = Op('p', &[A, A, Z]);

const MORE: Node = Op('p', &[A, A, Z, Z]);

/// A redex and a contractum, the scope of a term, the term, and what becomes of it, if it matches.
type Rewriting = (
    &'static Node,
    &'static Node,
    u32,
    Node,
    Option<Result<Node, BuildErr>>,
);

static REWRITINGS: [Rewriting; 12] = [
    // a value may use the ambient scope and no binder, and repeated values agree
    (&PAIR, &A, 2, FIRST, None),
    (&PAIR, &A, 2, SECOND, Some(Ok(Var(1)))),
    (&PAIR, &A, 2, BOUND, None),
    // arguments are put for the variables
    (
        &REDEX,
        &REDUCED,
        2,
        APPLIED,
        Some(Ok(Op('r', &[Q, Var(0)]))),
    ),
    (&REDEX, &REDUCED, 2, Q, None),
    (
        &Op('s', &[Hole('n')]),
        &Op('p', &[Hole('n'), Hole('n')]),
        0,
        Op('s', &[Num(7)]),
        Some(Ok(Op('p', &[Num(7), Num(7)]))),
    ),
    // what is used has 2^60 nodes and more, and no call spends time on them
    (&TWO, &Nested(60), 0, HUGE, Some(Err(BuildErr::TooLarge))),
    (&TWO, &Nested(60), 0, SMALL, Some(Ok(Z))),
    // twenty thousand nodes and a depth of two hundred are the most
    (
        &ONE,
        &DOUBLE,
        0,
        Op('g', &[Wide(9998)]),
        Some(Ok(Op('p', &[Wide(9998), Wide(9998), Z]))),
    ),
    (
        &ONE,
        &MORE,
        0,
        Op('g', &[Wide(9998)]),
        Some(Err(BuildErr::TooLarge)),
    ),
    (
        &ONE,
        &DOUBLE,
        0,
        Op('g', &[Chain(198)]),
        Some(Ok(Op('p', &[Chain(198), Chain(198), Z]))),
    ),
    (
        &ONE,
        &DOUBLE,
        0,
        Op('g', &[Chain(199)]),
        Some(Err(BuildErr::TooLarge)),
    ),
];

/// Whether the term was made that is due.
fn is_made(
    alloc: Global,
    made: &Option<Result<Term, BuildErr>>,
    due: &Option<Result<Node, BuildErr>>,
) -> Option<bool> {
    Some(match (made, due) {
        (Some(Ok(made)), Some(Ok(due))) => same(made, &term(alloc, due)?),
        (Some(Err(made)), Some(Err(due))) => *made == *due,
        (None, None) => true,
        _ => false,
    })
}

/// What the rewriting gives.
fn given(alloc: Global, row: &Rewriting) -> Option<Option<Result<Term, BuildErr>>> {
    let redex = pattern(alloc, row.0)?;
    let contractum = pattern(alloc, row.1)?;
    rewritten(alloc, &redex, &contractum, row.2, &term(alloc, &row.3)?)
}

/// Whether the rewriting gives what is due.
fn is_due(alloc: Global, row: &Rewriting) -> Option<bool> {
    is_made(alloc, &given(alloc, row)?, &row.4)
}

#[test]
fn a_contractum_is_built_of_what_its_redex_matched(rt: HostRuntime) -> Result<(), Fail> {
    for (place, row) in REWRITINGS.iter().enumerate() {
        check(place, is_due(rt.alloc(), row))?;
    }
    Ok(())
}
