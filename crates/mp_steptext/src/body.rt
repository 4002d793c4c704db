ghost use Rattle.std.specs.Prelude.{◌≡◌, ◌++◌, ℕ, List, [], Option, Some, IfOk, OnOk};
ghost use Rattle.mp_theory.specs.declared.rule.Need.{Need};
ghost use Rattle.mp_words.specs.declared.fail.TextErr.{TextErr};
ghost use Rattle.mp_words.specs.Faults.{least_from};

use mp_logic::{List, NoMemory};
use mp_names::Names;
use mp_theory::{Address, Need, Place};
use mp_words::{Reader, TextErr};
use std::alloc::Global;

/// What a step may give for a need, by a reader of what is written.
pub trait Body: Reader {
    /// What is given for a need.
    type Given: Drop;

    /// The number of its binders.
    ghost arity: { Self.Raw → ℕ };

    /// Its static faults, where it begins at this byte.
    ghost faults: { ℕ → Self.Raw → List TextErr };

    /// What it gives for a need; a value of no account where none is written.
    ghost given: { Need → Option Self.Raw → Self.Given };

    /// The one text of what is given for a need.
    ghost text: { List (List ℕ) → Self.Given → List ℕ };

    /// The number of its binders.
    fn arity(raw: &Self::Raw) -> u64
        ensures { result ≡ arity raw.now };

    /// The earliest of the fault that is held and its own.
    fn check(
        alloc: Global,
        raw: &Self::Raw,
        at: u32,
        held: Option<TextErr>,
    ) -> Result<Option<TextErr>, NoMemory>
        ensures { IfOk result (λ found. found ≡ least_from held (faults at raw.now)) };

    /// What it gives for a need, where it has no fault.
    fn build(alloc: Global, need: &Need, raw: &Self::Raw, at: u32) -> Result<Self::Given, NoMemory>
        requires { faults at raw.now ≡ [] }
        ensures { IfOk result (λ it. it ≡ given need.now (Some raw.now)) };

    /// Appends the one text of what is given for a need. Where there is no memory, some of it may have been appended.
    fn push(out: &mut Vec<u8>, names: &Names, value: &Self::Given) -> Result<(), NoMemory>
        ensures { OnOk result (out.new.items ≡ out.old.items ++ text names.now value.now) };
}

/// The value of a step.
#[derive(Drop)]
pub enum StepValue<G> {
    /// By a rule.
    Rule {
        /// The rule's place in the theory, counted from 0.
        rule: u32,
        /// Where the rule's conclusion has two contexts, how many hypotheses the first one has; None else.
        first: Option<u32>,
        /// What is given, in the order of the rule's needs.
        given: List<G>,
    },
    /// By a rewrite.
    Rewrite {
        /// The rewrite's place in the theory, counted from 0.
        rewrite: u32,
        /// The term of the goal that it rewrites in.
        place: Place,
        /// The way from that term to the subterm that is replaced.
        address: Address,
    },
}
