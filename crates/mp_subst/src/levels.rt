ghost use Rattle.std.specs.Prelude.{◌≡◌, ◌++◌, ◌∷◌, [], ◌<◌, ◌^◌, length, nat_eq, position, IsTrue, IfSome, OnOk, OnErr};
ghost use Rattle.mp_term.specs.Subst.{upto};
ghost use Rattle.mp_subst.specs.Runs.{levels_in};

use mp_logic::NoMemory;
use std::alloc::Global;
use std::marker::Model;

/// Levels that follow each other.
#[derive(Clone, Copy)]
pub(crate) struct Run {
    /// The first one.
    pub first: u32,
    /// How many they are.
    pub count: u64,
}

/// A list of levels. Contracts see the list; levels that follow each other are kept as one entry, so the variables of
/// a whole context take no more room and no more time than one variable.
#[derive(Drop)]
pub struct Levels {
    runs: Vec<Run>,
}

impl Model for Levels {
    ghost use Rattle.std.specs.Prelude.{List, ℕ};
    ghost use Rattle.mp_subst.specs.Runs.{levels_in};

    ghost Value = { List ℕ };

    ghost view = { λ levels. levels_in levels.runs.items };
}

impl Levels {
    /// No levels.
    pub fn new(alloc: Global) -> Levels
        ensures { result ≡ [] }
    {
        Levels {
            runs: Vec::new(alloc),
        }
    }

    /// Adds the level. Where there is no memory the list stays.
    pub fn push(&mut self, level: u32) -> Result<(), NoMemory>
        ensures ok { OnOk result (self.new ≡ self.old ++ level ∷ []) }
        ensures err { OnErr result (self.new ≡ self.old) }
    {
        self.push_range(level, 1)
    }

    /// Adds the levels from `first` on, so many of them. Where there is no memory the list stays.
    pub fn push_range(&mut self, first: u32, count: u64) -> Result<(), NoMemory>
        ensures ok { OnOk result (self.new ≡ self.old ++ upto first count) }
        ensures err { OnErr result (self.new ≡ self.old) }
    {
        push_run(&mut self.runs, Run { first, count })
    }

    /// The number of levels.
    pub fn len(&self) -> u32
        requires { length self.now < 2 ^ 32 }
        ensures { result ≡ length self.now }
    {
        count_levels(self.runs.as_slice())
    }

    // Where the level stands first.
    pub(crate) fn place_of(&self, level: u32) -> Option<u32>
        requires { length self.now < 2 ^ 32 }
        ensures { result ≡ position (λ x. nat_eq x level) self.now }
    {
        place_in(self.runs.as_slice(), level)
    }

    // Whether these are the variables of a scope of `n`, in order.
    pub(crate) fn is_scope(&self, n: u32) -> bool
        ensures { IsTrue result → self.now ≡ upto 0 n }
    {
        are_scope(self.runs.as_slice(), n)
    }
}

// Adds the run, to the last one where it follows that.
#[tactic(auto, using(crate::proofs::Runs::run_added))]
fn push_run(runs: &mut Vec<Run>, run: Run) -> Result<(), NoMemory>
    ensures ok { OnOk result (levels_in runs.new.items ≡ levels_in runs.old.items ++ upto run.first run.count) }
    ensures err { OnErr result (runs.new.items ≡ runs.old.items) }
{
    let count = runs.len();
    if count > 0
        && let Some(both) = one_run(runs[count - 1], run)
    {
        runs[count - 1] = both;
        return Ok(());
    }
    match runs.push(run) {
        Ok(()) => Ok(()),
        Err(_) => Err(NoMemory),
    }
}

// Both runs as one; None where the second doesn't follow the first.
#[tactic(auto, using(crate::proofs::Runs::run_joined))]
fn one_run(first: Run, second: Run) -> Option<Run>
    ensures { IfSome result (λ both. upto both.first both.count ≡ upto first.first first.count ++ upto second.first second.count) }
{
    if second.first < first.first || (second.first - first.first) as u64 != first.count {
        return None;
    }
    let count = first.count.checked_add(second.count)?;
    Some(Run {
        first: first.first,
        count,
    })
}

fn count_levels(runs: &[Run]) -> u32
    requires { length (levels_in runs.now) < 2 ^ 32 }
    ensures { result ≡ length (levels_in runs.now) }
{
    let mut total = 0u64;
    for run in runs {
        total += run.count;
    }
    total as u32
}

fn place_in(runs: &[Run], level: u32) -> Option<u32>
    requires { length (levels_in runs.now) < 2 ^ 32 }
    ensures { result ≡ position (λ x. nat_eq x level) (levels_in runs.now) }
{
    let mut before = 0u64;
    for run in runs {
        if run.first <= level && ((level - run.first) as u64) < run.count {
            let place = before + (level - run.first) as u64;
            return Some(place as u32);
        }
        before += run.count;
    }
    None
}

fn are_scope(runs: &[Run], n: u32) -> bool
    ensures { IsTrue result → levels_in runs.now ≡ upto 0 n }
{
    match runs.get(0) {
        Some(run) => runs.len() == 1 && run.first == 0 && run.count == n as u64,
        None => n == 0,
    }
}
