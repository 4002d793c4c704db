//! Rewrites at addresses of goals.

use crate::guards::is_good;
use crate::rows::Node::{Chain, Meta, Op, Under, Var, Wide};
use crate::rows::{Line, Node, goal, named, pattern, patterns};
use crate::table::check;
use mp_logic::{List, StepErr, Why};
use mp_rewrite::apply;
use mp_schema::rewrite_fault;
use mp_term::{Sequent, same_sequent};
use mp_theory::{Address, Place, Rewrite};
use std::alloc::Global;
use std::test::Fail;

const NAT: Node = Op('n', &[]);

const A: Node = Meta('A', &[], &[]);

const Z: Node = Op('z', &[]);

// app{lam{x. 'B[x]}; 'A} and 'B['A].
const REDEX: Node = Op('a', &[Op('l', &[Under(1, &Meta('B', &[], &[Var(0)]))]), A]);

const REDUCED: Node = Meta('B', &[], &[A]);

// f{x1; lam{z. z}} in scope 1, in scope 2, and in scope 3.
const F1: Node = Op('f', &[Var(0), Op('l', &[Under(1, &Var(1))])]);

const F2: Node = Op('f', &[Var(0), Op('l', &[Under(1, &Var(2))])]);

// q{app{lam{x. all{nat; y. r{x; y}}}; f{x1; lam{z. z}}}} in scope 1.
const APPLIED: Node = Op(
    'q',
    &[Op(
        'a',
        &[
            Op(
                'l',
                &[Under(1, &Op('!', &[NAT, Under(1, &Op('r', &[Var(1), Var(2)]))]))],
            ),
            F1,
        ],
    )],
);

const RESULT: Node = Op('q', &[Op('!', &[NAT, Under(1, &Op('r', &[F2, Var(1)]))])]);

// even{'A} --> twice{half{'A}} <-> 'A.
const EVEN: Node = Op('e', &[A]);

const HALF: Node = Op('t', &[Op('h', &[A])]);

const HALVED: Node = Op('p', &[Op('t', &[Op('h', &[Var(0)])])]);

const UNDER: Node = Op(
    '!',
    &[NAT, Under(1, &Op('p', &[Op('t', &[Op('h', &[Var(0)])])]))],
);

// g{'A} and twice 'A with one constant or two.
const ONE: Node = Op('g', &[A]);

const DOUBLE: Node = Op('p', &[A, A, Z]);

const MORE: Node = Op('p', &[A, A, Z, Z]);

/// The conditions, the redex and the contractum, the place, the address, the goal, and what is answered.
type Rewriting = (
    &'static [Node],
    &'static Node,
    &'static Node,
    Place,
    &'static [u32],
    Line,
    Result<&'static [Line], Why>,
);

static REWRITINGS: [Rewriting; 13] = [
    (
        &[],
        &REDEX,
        &REDUCED,
        Place::Concl,
        &[0],
        &[NAT, APPLIED],
        Ok(&[&[NAT, RESULT]]),
    ),
    (
        &[EVEN],
        &HALF,
        &A,
        Place::Concl,
        &[1, 0],
        &[UNDER],
        Err(Why::UnderBinder),
    ),
    (
        &[],
        &HALF,
        &A,
        Place::Concl,
        &[1, 0],
        &[UNDER],
        Ok(&[&[Op('!', &[NAT, Under(1, &Op('p', &[Var(0)]))])]]),
    ),
    (
        &[EVEN],
        &HALF,
        &A,
        Place::Concl,
        &[0],
        &[NAT, HALVED],
        Ok(&[&[NAT, Op('p', &[Var(0)])], &[NAT, Op('e', &[Var(0)])]]),
    ),
    (
        &[EVEN],
        &HALF,
        &A,
        Place::Hyp(1),
        &[0],
        &[NAT, HALVED, Z, Z],
        Ok(&[&[NAT, Op('p', &[Var(0)]), Z, Z], &[NAT, Op('e', &[Var(0)])]]),
    ),
    (
        &[EVEN],
        &HALF,
        &A,
        Place::Hyp(1),
        &[],
        &[NAT, HALVED],
        Err(Why::BadAddress),
    ),
    (
        &[EVEN],
        &HALF,
        &A,
        Place::Concl,
        &[1],
        &[NAT, HALVED],
        Err(Why::BadAddress),
    ),
    (
        &[],
        &REDEX,
        &REDUCED,
        Place::Concl,
        &[],
        &[NAT, HALVED],
        Err(Why::NoMatch),
    ),
    // an address that passes a binder and ends nowhere
    (
        &[EVEN],
        &HALF,
        &A,
        Place::Concl,
        &[1, 0, 0, 0, 0],
        &[UNDER],
        Err(Why::BadAddress),
    ),
    // twenty thousand nodes are the most
    (
        &[],
        &ONE,
        &DOUBLE,
        Place::Concl,
        &[],
        &[Op('g', &[Wide(9998)])],
        Ok(&[&[Op('p', &[Wide(9998), Wide(9998), Z])]]),
    ),
    (
        &[],
        &ONE,
        &MORE,
        Place::Concl,
        &[],
        &[Op('g', &[Wide(9998)])],
        Err(Why::TooLarge),
    ),
    // a depth of two hundred is the most
    (
        &[],
        &ONE,
        &Op('g', &[ONE]),
        Place::Concl,
        &[0],
        &[Op('k', &[Op('g', &[Chain(196)])])],
        Ok(&[&[Op('k', &[Op('g', &[Op('g', &[Chain(196)])])])]]),
    ),
    (
        &[],
        &ONE,
        &Op('g', &[ONE]),
        Place::Concl,
        &[0],
        &[Op('k', &[Op('g', &[Chain(197)])])],
        Err(Why::TooLarge),
    ),
];

fn rewrite_of(alloc: Global, row: &Rewriting) -> Option<Rewrite> {
    let (conds, redex, contractum, ..) = row;
    Some(Rewrite {
        name: named('r'),
        conds: patterns(alloc, conds)?,
        redex: pattern(alloc, redex)?,
        contractum: pattern(alloc, contractum)?,
    })
}

fn address_of(alloc: Global, steps: &[u32]) -> Option<Address> {
    let mut address = Address::new(alloc);
    for step in steps {
        address.push(*step).ok()?;
    }
    Some(address)
}

/// Whether these are the goals of the lines.
fn are_goals(alloc: Global, kids: &List<Sequent>, lines: &[Line]) -> Option<bool> {
    if kids.len() != lines.len() as u64 {
        return Some(false);
    }
    for (place, line) in lines.iter().enumerate() {
        if !same_sequent(kids.get(place as u64)?, &goal(alloc, line)?) {
            return Some(false);
        }
    }
    Some(true)
}

/// Whether the goal of the row is rewritten as the row says; None where no memory is left.
fn is_rewritten(alloc: Global, row: &Rewriting) -> Option<bool> {
    let (_, _, _, place, steps, line, due) = row;
    let rewrite = rewrite_of(alloc, row)?;
    let goal = goal(alloc, line)?;
    let address = address_of(alloc, steps)?;
    if let Some(_) = rewrite_fault(&rewrite.conds, &rewrite.redex, &rewrite.contractum) {
        return Some(false);
    }
    if !is_good(&goal) {
        return Some(false);
    }
    match (apply(alloc, &rewrite, place, &address, &goal), due) {
        (Ok(kids), Ok(lines)) => are_goals(alloc, &kids, lines),
        (Err(StepErr::Refused(why)), Err(expected)) => Some(why == *expected),
        (Err(StepErr::NoMemory), _) => None,
        _ => Some(false),
    }
}

#[test]
fn a_rewrite_changes_the_goal_at_its_address(rt: HostRuntime) -> Result<(), Fail> {
    for (place, row) in REWRITINGS.iter().enumerate() {
        check(place, is_rewritten(rt.alloc(), row))?;
    }
    Ok(())
}
