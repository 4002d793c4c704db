ghost use Rattle.std.specs.Prelude.{◌≡◌, ◌≢◌, IsFalse, IfOk, IfSome};
ghost use Rattle.mp_term.specs.Terms.{size_of};
ghost use Rattle.mp_delay.specs.Rows.{IsWeightOf};
ghost use Rattle.mp_delay.specs.Made.{made_or};

use mp_logic::NoMemory;
use mp_term::{Term, Weight, copy, weigh};
use std::alloc::Global;
use std::marker::Model;

/// A term, with its weight once that was asked for. Contracts see the term.
#[derive(Drop)]
pub(crate) struct Body {
    term: Term,
    weight: Option<Weight>,
}

impl Model for Body {
    ghost use Rattle.std.specs.Prelude.{IfSome};
    ghost use Rattle.mp_term.specs.declared.term.Term.{Term};
    ghost use Rattle.mp_term.specs.contracts.term.Term as plain;
    ghost use Rattle.mp_delay.specs.Rows.{IsWeightOf};

    ghost Value = { Term };

    ghost coded = { plain.the_row.coded };

    ghost view = { λ body. body.term };

    ghost invariant = { λ body. IfSome body.weight (λ weight. IsWeightOf weight body.term) };
}

impl Body {
    // The term, with its weight where it is known.
    pub(crate) fn of(term: Term, weight: Option<Weight>) -> Body
        requires { IfSome weight (λ known. IsWeightOf known term) }
        ensures { result ≡ term }
    {
        Body { term, weight }
    }

    // The same term, weighed: at most one walk.
    pub(crate) fn weighed(self) -> Body
        ensures { result ≡ self }
    {
        let weight = self.weight();
        let Body { term, .. } = self;
        Body {
            term,
            weight: Some(weight),
        }
    }

    pub(crate) fn term(&self) -> &Term
        ensures { result.now ≡ self.now }
    {
        &self.term
    }

    // The weight, where it is kept; else one walk.
    pub(crate) fn weight(&self) -> Weight
        ensures { IsWeightOf result self.now }
    {
        match self.weight {
            Some(weight) => weight,
            None => weigh(&self.term),
        }
    }

    // The weight, where it is kept.
    pub(crate) fn kept_weight(&self) -> Option<Weight>
        ensures { IfSome result (λ weight. IsWeightOf weight self.now) }
    {
        self.weight
    }

    // False where the kept weights tell that the terms differ in size.
    pub(crate) fn may_be_as_large_as(&self, other: &Body) -> bool
        ensures { IsFalse result → size_of self.now ≢ size_of other.now }
    {
        match (self.weight, other.weight) {
            (Some(weight), Some(other)) => weight.size == other.size,
            _ => true,
        }
    }

    pub(crate) fn copy(&self, alloc: Global) -> Result<Body, NoMemory>
        ensures { IfOk result (λ copied. copied ≡ self.now) }
    {
        Ok(Body {
            term: copy(alloc, &self.term)?,
            weight: self.weight,
        })
    }

    // The term that was made of this one, or this one where none was.
    pub(crate) fn remade(&self, alloc: Global, made: Option<Term>) -> Result<Body, NoMemory>
        ensures { IfOk result (λ body. body ≡ made_or self.now made) }
    {
        match made {
            Some(made) => Ok(Body::of(made, None)),
            None => self.copy(alloc),
        }
    }
}
