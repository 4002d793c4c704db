ghost use Rattle.std.specs.Prelude.{◌≡◌, ◌+◌, ◌<◌, ◌^◌, ◌↔◌, map, length, All, IsTrue, IfOk};
ghost use Rattle.mp_logic.specs.Trees.{counted};
ghost use Rattle.mp_term.specs.Terms.{size_of, depth_of, in_scope_of, all_true};
ghost use Rattle.mp_term.specs.Subst.{weak, sub_of, widest_of, AreInScope};
ghost use Rattle.mp_delay.specs.Moves.{moved, moved_term, relevel_bound, levels_fit, bound_fits, AreInOrder};
ghost use Rattle.mp_delay.specs.Instances.{levels_made, variables_and};
ghost use Rattle.mp_delay.specs.Heads.{bound_of, term_of};

use crate::body::Body;
use crate::composing::compose;
use crate::equal::same_moved;
use crate::instance::{Filling, fill};
use crate::making::make;
use crate::moves::level_of;
use crate::{DelayedBound, Head, Move, Moves};
use mp_logic::{List, NoMemory};
use mp_term::{Bound, Term, copy, copy_params};
use std::alloc::Global;
use std::marker::Model;

/// A term whose levels are still to be moved. Contracts see the moved term.
///
/// The body is shared with the terms from which it comes, so no walk is needed to copy a delayed term, to look at its
/// head or to weaken it. `force` makes the term.
#[derive(Drop)]
pub struct Delayed {
    body: Body,
    moves: Moves,
}

impl Model for Delayed {
    ghost use Rattle.std.specs.Prelude.{IsTrue};
    ghost use Rattle.mp_term.specs.declared.term.Term.{Term};
    ghost use Rattle.mp_term.specs.contracts.term.Term as plain;
    ghost use Rattle.mp_delay.specs.Moves.{moved, moved_term, levels_fit_by};

    ghost Value = { Term };

    ghost coded = { plain.the_row.coded };

    ghost view = { λ delayed. moved_term delayed.moves delayed.body };

    ghost invariant = { λ delayed. IsTrue (levels_fit_by (moved delayed.moves) delayed.body) };
}

impl Delayed {
    /// The term itself, with nothing to move.
    ///
    /// The term must be in this scope, and no scope in it may reach `2^31`. NoMemory where memory ran out; nothing else is
    /// refused. No walk.
    pub fn of(alloc: Global, t: Term, scope: u32) -> Result<Delayed, NoMemory>
        requires scoped { IsTrue (in_scope_of t scope) }
        requires narrow { widest_of t scope < 2 ^ 31 }
        ensures { IfOk result (λ delayed. delayed ≡ t) }
    {
        Ok(Delayed {
            body: Body::of(t, None),
            moves: Moves::new(alloc),
        })
    }

    /// The term that it stands for, made. NoMemory where memory ran out; nothing else is refused.
    ///
    /// Where nothing is to be moved, it is one more owner of the term. Else one walk, which shares each body in which
    /// nothing moves.
    pub fn force(&self, alloc: Global) -> Result<Term, NoMemory>
        ensures { IfOk result (λ t. t ≡ self.now) }
    {
        make(alloc, self.body.term(), self.moves.as_slice())
    }

    /// The number of variables and operators. The count stops at `2^64 - 1`. The terms of a goal keep it; else it is one walk.
    pub fn size(&self) -> u64
        ensures { result ≡ counted (size_of self.now) }
    {
        self.body.weight().size
    }

    /// The depth: 1 for a variable, and for an operator 1 more than the depth of its deepest body, or 1 where it has none.
    /// The count stops at `2^64 - 1`. The terms of a goal keep it; else it is one walk.
    pub fn depth(&self) -> u64
        ensures { result ≡ counted (depth_of self.now) }
    {
        self.body.weight().depth
    }

    /// An equal delayed term, which shares the body. NoMemory where memory ran out; nothing else is refused.
    pub fn copy(&self, alloc: Global) -> Result<Delayed, NoMemory>
        ensures { IfOk result (λ copied. copied ≡ self.now) }
    {
        Ok(Delayed {
            body: self.body.copy(alloc)?,
            moves: Moves::from_slice(alloc, self.moves.as_slice())?,
        })
    }

    /// The term with its levels moved further. The moves must be in order, and each level of the moved term must be a number
    /// of 32 bits. NoMemory where memory ran out; nothing else is refused.
    ///
    /// No walk, unless the moves become many: then they are made.
    pub fn moved_by(&self, alloc: Global, moves: &[Move]) -> Result<Delayed, NoMemory>
        requires ordered { AreInOrder moves.now }
        requires fits { IsTrue (levels_fit (moved_term moves.now self.now)) }
        ensures { IfOk result (λ delayed. delayed ≡ moved_term moves.now self.now) }
    {
        if let Some(moves) = compose(alloc, self.moves.as_slice(), moves)? {
            return Ok(Delayed {
                body: self.body.copy(alloc)?,
                moves,
            });
        }
        let made = self.force(alloc)?;
        let made = make(alloc, &made, moves)?;
        Ok(Delayed {
            body: Body::of(made, self.body.kept_weight()),
            moves: Moves::new(alloc),
        })
    }

    /// The term of scope `n` in scope `n + k`: its free variables stay, and its bound ones move up by `k`.
    ///
    /// The term must be in scope `n`, and no scope in the result may reach `2^31`. NoMemory where memory ran out; nothing
    /// else is refused. No walk, unless the moves become many: then they are made.
    pub fn weakened(&self, alloc: Global, n: u32, k: u32) -> Result<Delayed, NoMemory>
        requires scoped { IsTrue (in_scope_of self.now n) }
        requires narrow { widest_of self.now n + k < 2 ^ 31 }
        ensures { IfOk result (λ delayed. delayed ≡ weak n k self.now) }
    {
        let up = Move { from: n, to: n + k };
        self.moved_by(alloc, &[up])
    }
    /// The term with variables for its first variables, and terms for the others: the variables below `count` become the
    /// variables that `moves` make of them, and those from `count` on become the terms `args`. What it gives is of scope
    /// `scope`.
    ///
    /// There must be a term in `args` for each variable from `count` on, and each variable and term that is put in must be in
    /// scope `scope`. No scope in the term nor in the result may reach `2^31`. NoMemory where memory ran out; nothing else
    /// is refused.
    ///
    /// One walk, which shares each body in which nothing changes.
    pub fn instance(
        &self,
        alloc: Global,
        moves: &[Move],
        count: u32,
        args: &[Term],
        scope: u32,
    ) -> Result<Delayed, NoMemory>
        requires scoped { IsTrue (in_scope_of self.now (count + length args.now)) }
        requires below { All (λ level. level < scope) (levels_made moves.now count) }
        requires args_scoped { AreInScope scope args.now }
        requires narrow { widest_of self.now (count + length args.now) < 2 ^ 31 }
        requires made_narrow { widest_of (sub_of self.now (variables_and moves.now count args.now) scope) scope < 2 ^ 31 }
        ensures { IfOk result (λ delayed. delayed ≡ sub_of self.now (variables_and moves.now count args.now) scope) }
    {
        let filling = Filling {
            own: self.moves.as_slice(),
            moves,
            count,
            args,
            scope,
        };
        let made = fill(alloc, &filling, self.body.term(), 0)?;
        Ok(Delayed {
            body: self.body.remade(alloc, made)?,
            moves: Moves::new(alloc),
        })
    }

    /// Its head: the variable, or the operator with its parameters and its subterms, which are delayed. NoMemory where memory
    /// ran out; nothing else is refused. No walk.
    pub fn view(&self, alloc: Global) -> Result<Head, NoMemory>
        ensures { IfOk result (λ head. term_of head ≡ self.now) }
    {
        let moves = self.moves.as_slice();
        match self.body.term() {
            Term::Var(level) => Ok(Head::Var(level_of(moves, *level))),
            Term::Op { op, params, subs } => Ok(Head::Op {
                op: *op,
                params: copy_params(alloc, params)?,
                subs: delayed_bodies(alloc, subs.get().as_slice(), moves)?,
            }),
        }
    }

    /// Whether both stand for the same term. It takes no memory, and makes neither.
    pub fn same(&self, other: &Delayed) -> bool
        ensures { IsTrue result ↔ (self.now ≡ other.now) }
    {
        self.body.may_be_as_large_as(&other.body)
            && same_moved(
                self.body.term(),
                self.moves.as_slice(),
                other.body.term(),
                other.moves.as_slice(),
            )
    }
}

// The bodies with their levels still to be moved.
fn delayed_bodies(
    alloc: Global,
    kids: &[Bound],
    moves: &[Move],
) -> Result<List<DelayedBound>, NoMemory>
    requires { IsTrue (all_true (map (bound_fits (moved moves.now)) kids.now)) }
    ensures { IfOk result (λ bodies. map bound_of bodies ≡ map (relevel_bound (moved moves.now)) kids.now) }
{
    let mut bodies = List::with_capacity(alloc, kids.len() as u64)?;
    for kid in kids {
        let body = Delayed {
            body: Body::of(copy(alloc, &kid.body)?, None),
            moves: Moves::from_slice(alloc, moves)?,
        };
        let body = DelayedBound {
            binders: kid.binders,
            body,
        };
        if let Err((_, refused)) = bodies.push(body) {
            return Err(refused);
        }
    }
    Ok(bodies)
}
