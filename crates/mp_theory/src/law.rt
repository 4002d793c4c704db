ghost use Rattle.std.specs.Prelude.{◌≡◌};
ghost use Rattle.std.specs.Option.{option_copied};
ghost use Rattle.mp_theory.specs.Tables.{rule_in, rewrite_in, width_in, IsLaw};

use crate::{Rewrite, Rule};

/// What a step may be by. Each law of a theory has a name of its own.
#[derive(Drop)]
pub enum Law {
    /// A rule.
    Rule(Rule),
    /// A rewrite.
    Rewrite(Rewrite),
}

impl Law {
    /// The rule that it is. None exactly where it is of another kind.
    pub fn as_rule(&self) -> Option<&Rule>
        ensures { option_copied result ≡ rule_in self.now }
    {
        match self {
            Law::Rule(rule) => Some(rule),
            Law::Rewrite(_) => None,
        }
    }

    /// The rewrite that it is. None exactly where it is of another kind.
    pub fn as_rewrite(&self) -> Option<&Rewrite>
        ensures { option_copied result ≡ rewrite_in self.now }
    {
        match self {
            Law::Rule(_) => None,
            Law::Rewrite(rewrite) => Some(rewrite),
        }
    }

    /// The most subgoals that a step by it gives.
    pub(crate) fn width(&self) -> u32
        requires { IsLaw self.now }
        ensures { result ≡ width_in self.now }
    {
        match self {
            Law::Rule(rule) => rule.premises.len() as u32,
            Law::Rewrite(rewrite) => rewrite.conds.len() as u32 + 1,
        }
    }
}
