use mp_logic::{List, Sym};
use mp_strategy::Tac;
use mp_term::Sequent;
use mp_theory::Just;

/// A goal with its fuel and its strategy.
#[derive(Drop)]
pub struct Entry {
    pub name: Sym,
    pub goal: Sequent,
    /// How many steps a path of the tree may have, 0 to 400.
    pub fuel: u32,
    /// The justifications of the strategy's steps, in the order of the text.
    pub justs: List<Just>,
    /// The strategies, numbered in preorder: the whole one is the first.
    pub tacs: List<Tac>,
}

/// The goals of a script, in the order of the text.
#[derive(Drop)]
pub struct Script {
    pub entries: List<Entry>,
}
