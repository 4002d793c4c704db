//! The faults of rules and rewrites: each of them, at its limit, and beside the next one in their order.

use self::Said::{
    Big, Biggest, Deep, Deepest, Doubled, Elsewhere, Few, Fine, Free, Holed, HoledOtherwise, Late,
    LateAndTwice, Many, Otherwise, Three, ThreeAndLate, Twice, Used, UsedWithout,
};
use crate::rows::Node::{Chain, Ctx, Hole, Meta, Num, Op, Under, Var, Wide};
use crate::rows::{Line, Node, pattern, patterns, schema};
use crate::table::check;
use mp_logic::{List, NoMemory};
use mp_schema::SchemaFault::{
    BadUse, DanglingContext, MisplacedHyp, NotAPattern, TooBig, TooDeep, TooMany, TooManyContexts,
    TwiceContext, UnboundMeta, UnboundParam, UnboundVar,
};
use mp_schema::{Pattern, Schema, SchemaFault, find_rule_fault, rewrite_fault, rule_fault};
use std::alloc::Global;
use std::test::Fail;

// ## Rules

const H: Node = Ctx('H', &[], &[]);

const J: Node = Ctx('J', &[], &[]);

const K: Node = Ctx('K', &[], &[]);

const A: Node = Meta('A', &['H'], &[]);

const C: Node = Meta('C', &['H', 'J'], &[Var(0)]);

const C_TWICE: Node = Meta('C', &['H', 'J'], &[Var(0), Var(0)]);

/// A schema of the table.
#[derive(Clone, Copy)]
enum Said {
    /// `<H>; x: 'A<H>; <J> >- 'C<H;J>[x]`, which has no fault.
    Fine,
    /// A third context.
    Three,
    /// A hypothesis after the second context.
    Late,
    /// Both.
    ThreeAndLate,
    /// A variable twice as an argument.
    Twice,
    /// A hypothesis after the second context, and a variable twice.
    LateAndTwice,
    /// `<H> >- s{9 variables. #[0]}`.
    Many,
    /// `<H> >- s{8 variables. #[0]}`.
    Few,
    /// A pattern of depth 201.
    Deep,
    /// A pattern of depth 200.
    Deepest,
    /// A pattern of 20,001 nodes.
    Big,
    /// A pattern of 20,000 nodes.
    Biggest,
    /// A variable that nothing binds.
    Free,
    /// A context that isn't there.
    Elsewhere,
    /// A context twice in a list.
    Doubled,
    /// `'A` without its context.
    Otherwise,
    /// A hole.
    Holed,
    /// A hole with another name.
    HoledOtherwise,
    /// `<H> >- s{y. 'B[y]}`.
    Used,
    /// `<H> >- s{y. 'B}`.
    UsedWithout,
}

static FINE: [Node; 4] = [H, A, J, C];

static THREE: [Node; 5] = [H, A, J, K, C];

static LATE: [Node; 4] = [H, J, A, C];

static THREE_AND_LATE: [Node; 5] = [H, J, A, K, C];

static TWICE: [Node; 4] = [H, A, J, C_TWICE];

static LATE_AND_TWICE: [Node; 4] = [H, J, A, C_TWICE];

static MANY: [Node; 2] = [H, Op('s', &[Under(9, &Num(0))])];

static FEW: [Node; 2] = [H, Op('s', &[Under(8, &Num(0))])];

static DEEP: [Node; 2] = [H, Chain(200)];

static DEEPEST: [Node; 2] = [H, Chain(199)];

static BIG: [Node; 2] = [H, Wide(20000)];

static BIGGEST: [Node; 2] = [H, Wide(19999)];

static FREE: [Node; 2] = [H, Var(0)];

static ELSEWHERE: [Node; 2] = [H, Meta('B', &['J'], &[])];

static DOUBLED: [Node; 2] = [H, Meta('B', &['H', 'H'], &[])];

static OTHERWISE: [Node; 2] = [H, Meta('A', &[], &[])];

static HOLED: [Node; 2] = [H, Hole('n')];

static HOLED_OTHERWISE: [Node; 2] = [H, Hole('m')];

static USED: [Node; 2] = [H, Op('s', &[Under(1, &Meta('B', &[], &[Var(0)]))])];

static USED_WITHOUT: [Node; 2] = [H, Op('s', &[Under(1, &Meta('B', &[], &[]))])];

fn line(said: Said) -> Line {
    match said {
        Fine => &FINE,
        Three => &THREE,
        Late => &LATE,
        ThreeAndLate => &THREE_AND_LATE,
        Twice => &TWICE,
        LateAndTwice => &LATE_AND_TWICE,
        Many => &MANY,
        Few => &FEW,
        Deep => &DEEP,
        Deepest => &DEEPEST,
        Big => &BIG,
        Biggest => &BIGGEST,
        Free => &FREE,
        Elsewhere => &ELSEWHERE,
        Doubled => &DOUBLED,
        Otherwise => &OTHERWISE,
        Holed => &HOLED,
        HoledOtherwise => &HOLED_OTHERWISE,
        Used => &USED,
        UsedWithout => &USED_WITHOUT,
    }
}

/// The premises of a rule, its conclusion, and the fault that is told.
type Rule = (&'static [Said], Said, Option<SchemaFault>);

static RULES: [Rule; 29] = [
    (&[], Fine, None),
    // each fault alone
    (&[Many], Fine, Some(TooMany)),
    (&[Deep], Fine, Some(TooDeep)),
    (&[Big], Fine, Some(TooBig)),
    (&[Free], Fine, Some(UnboundVar)),
    (&[Elsewhere], Fine, Some(DanglingContext)),
    (&[Doubled], Fine, Some(TwiceContext)),
    (&[], Three, Some(TooManyContexts)),
    (&[], Late, Some(MisplacedHyp)),
    (&[], Twice, Some(NotAPattern)),
    (&[Otherwise], Fine, Some(BadUse)),
    (&[Holed], Fine, Some(UnboundParam)),
    // beside the next one
    (&[Deep, Many], Fine, Some(TooMany)),
    (&[Big, Deep], Fine, Some(TooDeep)),
    (&[Free, Big], Fine, Some(TooBig)),
    (&[Elsewhere, Free], Fine, Some(UnboundVar)),
    (&[Doubled, Elsewhere], Fine, Some(DanglingContext)),
    (&[Doubled], Three, Some(TwiceContext)),
    (&[], ThreeAndLate, Some(TooManyContexts)),
    (&[], LateAndTwice, Some(MisplacedHyp)),
    (&[Otherwise], Twice, Some(NotAPattern)),
    (&[Holed, Otherwise], Fine, Some(BadUse)),
    // at the limits
    (&[Few], Fine, None),
    (&[Deepest], Fine, None),
    (&[Biggest], Fine, None),
    // a use is compared with the first one of its name, and a hole with those of the conclusion
    (&[Used, Used], Fine, None),
    (&[Used, UsedWithout], Fine, Some(BadUse)),
    (&[Holed], Holed, None),
    (&[Holed], HoledOtherwise, Some(UnboundParam)),
];

/// Whether this fault is told of the rule, by tables and without memory.
fn is_told(
    alloc: Global,
    premises: &List<Schema>,
    concl: &Schema,
    due: Option<SchemaFault>,
) -> bool {
    if rule_fault(premises, concl) != due {
        return false;
    }
    match find_rule_fault(alloc, premises, concl) {
        Ok(found) => found == due,
        Err(NoMemory) => false,
    }
}

fn premises(alloc: Global, row: &[Said]) -> Option<List<Schema>> {
    let mut premises = Vec::new(alloc);
    for said in row {
        premises.push(schema(alloc, line(*said))?).ok()?;
    }
    Some(List::from_vec(premises))
}

fn is_rule_told(alloc: Global, row: &Rule) -> Option<bool> {
    let premises = premises(alloc, row.0)?;
    let concl = schema(alloc, line(row.1))?;
    Some(is_told(alloc, &premises, &concl, row.2))
}

#[test]
fn the_first_fault_of_a_rule_is_told(rt: HostRuntime) -> Result<(), Fail> {
    for (place, row) in RULES.iter().enumerate() {
        check(place, is_rule_told(rt.alloc(), row))?;
    }
    Ok(())
}

// ## Rewrites

const PLAIN: Node = Meta('A', &[], &[]);

/// s{'A}, s{y. 'A[y]} and s{y. 'A[y; y]}.
const OVER: Node = Op('s', &[PLAIN]);

const APPLIED: Node = Op('s', &[Under(1, &Meta('A', &[], &[Var(0)]))]);

const APPLIED_TWICE: Node = Op('s', &[Under(1, &Meta('A', &[], &[Var(0), Var(0)]))]);

const UNKNOWN: Node = Meta('B', &[], &[]);

const NINE: Node = Op('s', &[Under(9, &Num(0))]);

/// The conditions of a rewrite, its redex, its contractum, and the fault that is told.
type Rewrite = (
    &'static [Node],
    &'static Node,
    &'static Node,
    Option<SchemaFault>,
);

static REWRITES: [Rewrite; 16] = [
    (&[], &OVER, &PLAIN, None),
    // each fault of a condition alone
    (&[NINE], &OVER, &PLAIN, Some(TooMany)),
    (&[Chain(200)], &OVER, &PLAIN, Some(TooDeep)),
    (&[Wide(20000)], &OVER, &PLAIN, Some(TooBig)),
    (&[Var(0)], &OVER, &PLAIN, Some(UnboundVar)),
    (&[APPLIED], &OVER, &PLAIN, Some(BadUse)),
    (&[Hole('n')], &OVER, &PLAIN, Some(UnboundParam)),
    (&[UNKNOWN], &OVER, &PLAIN, Some(UnboundMeta)),
    // beside the next one
    (&[Chain(200), NINE], &OVER, &PLAIN, Some(TooMany)),
    (&[Wide(20000), Chain(200)], &OVER, &PLAIN, Some(TooDeep)),
    (&[Var(0), Wide(20000)], &OVER, &PLAIN, Some(TooBig)),
    (&[APPLIED, Var(0)], &OVER, &PLAIN, Some(UnboundVar)),
    (&[Hole('n'), APPLIED], &OVER, &PLAIN, Some(BadUse)),
    (&[UNKNOWN, Hole('n')], &OVER, &PLAIN, Some(UnboundParam)),
    // a redex is applied to distinct variables, and has no contexts
    (&[], &APPLIED_TWICE, &Num(0), Some(NotAPattern)),
    (&[], &A, &Num(0), Some(DanglingContext)),
];

/// The redex and the contractum.
fn sides(alloc: Global, row: &Rewrite) -> Option<(Pattern, Pattern)> {
    let redex = pattern(alloc, row.1)?;
    Some((redex, pattern(alloc, row.2)?))
}

/// Whether the fault that is told of the rewrite is the one that is due.
fn is_rewrite_told(alloc: Global, row: &Rewrite) -> Option<bool> {
    let conds = patterns(alloc, row.0)?;
    let (redex, contractum) = sides(alloc, row)?;
    Some(rewrite_fault(&conds, &redex, &contractum) == row.3)
}

#[test]
fn the_first_fault_of_a_rewrite_is_told(rt: HostRuntime) -> Result<(), Fail> {
    for (place, row) in REWRITES.iter().enumerate() {
        check(place, is_rewrite_told(rt.alloc(), row))?;
    }
    Ok(())
}
