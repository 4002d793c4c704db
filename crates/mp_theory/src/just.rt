use crate::{Address, Place};
use mp_logic::{List, Sym};
use mp_term::Term;

/// The value that a step gives for a need.
#[derive(Drop)]
pub struct Given {
    /// The need's name.
    pub name: Sym,
    /// The number of its arguments.
    pub arity: u32,
    /// The term, in scope `200 + arity`: variable `i` below 200 is hypothesis `i` of the goal, counted from 0, and
    /// the further ones are the arguments.
    pub body: Term,
}

/// Why a goal follows from its subgoals: what a step is by.
#[derive(Drop)]
pub enum Just {
    /// A rule of the theory.
    Rule {
        /// The rule's place in the theory, counted from 0.
        rule: u32,
        /// Where the rule's conclusion has two contexts, how many hypotheses the first one has; None else.
        first: Option<u32>,
        /// The values of the rule's needs, in the order of the needs.
        given: List<Given>,
    },
    /// A rewrite of the theory, of one subterm of the goal.
    Rewrite {
        /// The rewrite's place in the theory, counted from 0.
        rewrite: u32,
        /// The term of the goal that it rewrites in.
        place: Place,
        /// The way from that term to the subterm that it replaces.
        address: Address,
    },
}
