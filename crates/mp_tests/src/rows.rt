//! Terms, patterns, goals and schemata, made from rows of plain values that say what they are.

use self::Node::{Chain, Ctx, Hole, Meta, Nested, Num, Op, Under, Var, Wide};
use mp_logic::{List, Shared, Sym};
use mp_schema::{Item, PBound, ParamPat, Pattern, Schema};
use mp_term::{Bound, Param, Sequent, Term};
use std::alloc::Global;

/// A pattern, a term or a context. A letter stands for the name whose number it is.
#[derive(Clone, Copy)]
pub(crate) enum Node {
    /// A variable, by its level.
    Var(u32),
    /// An operator over its subterms.
    Op(char, &'static [Node]),
    /// A subterm under so many binders.
    Under(u32, &'static Node),
    /// A constant with this number.
    Num(i64),
    /// A constant with the hole of this name.
    Hole(char),
    /// So many operators above a constant, one over the other.
    Chain(u32),
    /// An operator over so many constants.
    Wide(u32),
    /// 'B['A['A[.. 'A[z]]]], with so many 'A.
    Nested(u32),
    /// A second-order variable with its contexts and its arguments.
    Meta(char, &'static [char], &'static [Node]),
    /// A context, likewise.
    Ctx(char, &'static [char], &'static [Node]),
}

/// The items of a schema, or the hypotheses of a goal, and after them the conclusion.
pub(crate) type Line = &'static [Node];

/// The name that the letter stands for.
pub(crate) fn named(letter: char) -> Sym {
    Sym(letter as u32)
}

/// The names that the letters stand for.
pub(crate) fn names(alloc: Global, letters: &[char]) -> Option<List<Sym>> {
    let mut row = Vec::new(alloc);
    for letter in letters {
        row.push(named(*letter)).ok()?;
    }
    Some(List::from_vec(row))
}

fn binders(node: &Node) -> u32 {
    match node {
        Under(binders, _) => *binders,
        _ => 0,
    }
}

// ## Terms

fn operator(alloc: Global, op: char, params: List<Param>, subs: Vec<Bound>) -> Option<Term> {
    let op = named(op);
    let subs = Shared::new(alloc, List::from_vec(subs)).ok()?;
    Some(Term::Op { op, params, subs })
}

fn operation(alloc: Global, op: char, subs: Vec<Bound>) -> Option<Term> {
    operator(alloc, op, List::new(alloc), subs)
}

fn constant(alloc: Global) -> Option<Term> {
    operation(alloc, 'z', Vec::new(alloc))
}

fn wide(alloc: Global, constants: u32) -> Option<Term> {
    let mut subs = Vec::new(alloc);
    for _ in 0..constants {
        let body = constant(alloc)?;
        subs.push(Bound { binders: 0, body }).ok()?;
    }
    operation(alloc, 'w', subs)
}

fn above(alloc: Global, body: Term) -> Option<Term> {
    let mut subs = Vec::new(alloc);
    subs.push(Bound { binders: 0, body }).ok()?;
    operation(alloc, 's', subs)
}

fn chain(alloc: Global, operators: u32) -> Option<Term> {
    let mut body = constant(alloc)?;
    for _ in 0..operators {
        body = above(alloc, body)?;
    }
    Some(body)
}

fn numeral(alloc: Global, number: i64) -> Option<Term> {
    let params = List::from_vec(vec![in alloc; Param::Num(number)].ok()?);
    operator(alloc, '#', params, Vec::new(alloc))
}

#[cycle(term)]
fn bounds(alloc: Global, nodes: &[Node]) -> Option<Vec<Bound>> {
    let mut subs = Vec::new(alloc);
    for sub in nodes {
        let (binders, body) = (binders(sub), term(alloc, sub)?);
        subs.push(Bound { binders, body }).ok()?;
    }
    Some(subs)
}

/// The term that the node says; holes, contexts and second-order variables are none.
#[cycle(term)]
pub(crate) fn term(alloc: Global, node: &Node) -> Option<Term> {
    match node {
        Var(level) => Some(Term::Var(*level)),
        Op(op, nodes) => operation(alloc, *op, bounds(alloc, *nodes)?),
        Under(_, body) => term(alloc, *body),
        Num(number) => numeral(alloc, *number),
        Chain(operators) => chain(alloc, *operators),
        Wide(constants) => wide(alloc, *constants),
        Hole(_) | Nested(_) | Meta(..) | Ctx(..) => None,
    }
}

/// The terms that the nodes say.
pub(crate) fn terms(alloc: Global, nodes: &[Node]) -> Option<Vec<Term>> {
    let mut row = Vec::new(alloc);
    for node in nodes {
        row.push(term(alloc, node)?).ok()?;
    }
    Some(row)
}

/// The goal that the line says.
pub(crate) fn goal(alloc: Global, line: Line) -> Option<Sequent> {
    let [nodes @ .., concl] = line else {
        return None;
    };
    let hyps = List::from_vec(terms(alloc, nodes)?);
    let concl = term(alloc, concl)?;
    Some(Sequent { hyps, concl })
}

// ## Patterns

fn pattern_operation(alloc: Global, op: char, subs: Vec<PBound>) -> Pattern {
    Pattern::Op {
        op: named(op),
        params: List::new(alloc),
        subs: List::from_vec(subs),
    }
}

fn pattern_constant(alloc: Global) -> Pattern {
    pattern_operation(alloc, 'z', Vec::new(alloc))
}

fn wide_pattern(alloc: Global, constants: u32) -> Option<Pattern> {
    let mut subs = Vec::new(alloc);
    for _ in 0..constants {
        let body = pattern_constant(alloc);
        subs.push(PBound { binders: 0, body }).ok()?;
    }
    Some(pattern_operation(alloc, 'w', subs))
}

fn above_pattern(alloc: Global, body: Pattern) -> Option<Pattern> {
    let mut subs = Vec::new(alloc);
    subs.push(PBound { binders: 0, body }).ok()?;
    Some(pattern_operation(alloc, 's', subs))
}

fn chain_pattern(alloc: Global, operators: u32) -> Option<Pattern> {
    let mut body = pattern_constant(alloc);
    for _ in 0..operators {
        body = above_pattern(alloc, body)?;
    }
    Some(body)
}

fn constant_with(alloc: Global, param: ParamPat) -> Option<Pattern> {
    Some(Pattern::Op {
        op: named('#'),
        params: List::from_vec(vec![in alloc; param].ok()?),
        subs: List::new(alloc),
    })
}

fn applied(alloc: Global, name: char, arg: Pattern) -> Option<Pattern> {
    Some(Pattern::Meta {
        name: named(name),
        ctxs: List::new(alloc),
        args: List::from_vec(vec![in alloc; arg].ok()?),
    })
}

fn nested(alloc: Global, times: u32) -> Option<Pattern> {
    let mut body = pattern_constant(alloc);
    for _ in 0..times {
        body = applied(alloc, 'A', body)?;
    }
    applied(alloc, 'B', body)
}

#[cycle(pattern)]
fn pattern_bounds(alloc: Global, nodes: &[Node]) -> Option<Vec<PBound>> {
    let mut subs = Vec::new(alloc);
    for sub in nodes {
        let (binders, body) = (binders(sub), pattern(alloc, sub)?);
        subs.push(PBound { binders, body }).ok()?;
    }
    Some(subs)
}

/// The pattern that the node says; a context is none.
#[cycle(pattern)]
pub(crate) fn pattern(alloc: Global, node: &Node) -> Option<Pattern> {
    match node {
        Var(level) => Some(Pattern::Var(*level)),
        Op(op, nodes) => Some(pattern_operation(alloc, *op, pattern_bounds(alloc, *nodes)?)),
        Under(_, body) => pattern(alloc, *body),
        Num(number) => constant_with(alloc, ParamPat::Lit(Param::Num(*number))),
        Hole(name) => constant_with(alloc, ParamPat::Hole(named(*name))),
        Chain(operators) => chain_pattern(alloc, *operators),
        Wide(constants) => wide_pattern(alloc, *constants),
        Nested(times) => nested(alloc, *times),
        Meta(name, ctxs, args) => Some(Pattern::Meta {
            name: named(*name),
            ctxs: names(alloc, *ctxs)?,
            args: patterns(alloc, *args)?,
        }),
        Ctx(..) => None,
    }
}

/// The patterns that the nodes say.
#[cycle(pattern)]
pub(crate) fn patterns(alloc: Global, nodes: &[Node]) -> Option<List<Pattern>> {
    let mut row = Vec::new(alloc);
    for node in nodes {
        row.push(pattern(alloc, node)?).ok()?;
    }
    Some(List::from_vec(row))
}

fn item(alloc: Global, node: &Node) -> Option<Item> {
    match node {
        Ctx(name, ctxs, args) => Some(Item::Ctx {
            name: named(*name),
            ctxs: names(alloc, *ctxs)?,
            args: patterns(alloc, *args)?,
        }),
        _ => Some(Item::Hyp(pattern(alloc, node)?)),
    }
}

fn items(alloc: Global, nodes: &[Node]) -> Option<List<Item>> {
    let mut items = Vec::new(alloc);
    for node in nodes {
        items.push(item(alloc, node)?).ok()?;
    }
    Some(List::from_vec(items))
}

/// The schema that the line says.
pub(crate) fn schema(alloc: Global, line: Line) -> Option<Schema> {
    let [nodes @ .., concl] = line else {
        return None;
    };
    let items = items(alloc, nodes)?;
    let concl = pattern(alloc, concl)?;
    Some(Schema { items, concl })
}

/// The schemata that the lines say.
pub(crate) fn schemata(alloc: Global, lines: &[Line]) -> Option<List<Schema>> {
    let mut row = Vec::new(alloc);
    for line in lines {
        row.push(schema(alloc, *line)?).ok()?;
    }
    Some(List::from_vec(row))
}
