ghost use Rattle.std.specs.Prelude.{◌≡◌};
ghost use Rattle.mp_words.specs.declared.fail.TextFail.TheVariants as fail;

use mp_logic::NoMemory;
use thiserror::Error;

/// What is wrong with a text. Not each reader has each of them.
#[derive(Clone, Copy, Debug, PartialEq, Eq, Error)]
pub enum TextWhy {
    /// A byte that begins no token, or that isn't allowed in a comment.
    #[error("BadByte")]
    BadByte,
    /// A name of more than 64 bytes.
    #[error("LongName")]
    LongName,
    /// A number that is written in no allowed way, or that is out of its range.
    #[error("BadNumber")]
    BadNumber,
    /// A string that isn't well formed, or is too long.
    #[error("BadString")]
    BadString,
    /// More open brackets than there may be.
    #[error("TooNested")]
    TooNested,
    /// A token at which the grammar is stuck, or an end that comes too early.
    #[error("Syntax")]
    Syntax,
    /// A name that stands for a rule, a rewrite, a goal or a section already.
    #[error("Taken")]
    Taken,
    /// A name of no rule, no rewrite or no goal.
    #[error("UnknownName")]
    UnknownName,
    /// The first one too many of parameters, binders, arguments, hypotheses and so on.
    #[error("TooMany")]
    TooMany,
    /// A node that is too deep.
    #[error("TooDeep")]
    TooDeep,
    /// A sequent, a schema or a term of too many nodes.
    #[error("TooBig")]
    TooBig,
    /// A variable that nothing before it binds.
    #[error("UnboundVar")]
    UnboundVar,
    /// A context that may not stand in this list.
    #[error("DanglingContext")]
    DanglingContext,
    /// A context for the second time.
    #[error("TwiceContext")]
    TwiceContext,
    /// A third context in a conclusion.
    #[error("TooManyContexts")]
    TooManyContexts,
    /// A named hypothesis outside of two contexts.
    #[error("MisplacedHyp")]
    MisplacedHyp,
    /// An argument that isn't a variable, or is the same one again, where distinct variables have to stand.
    #[error("NotAPattern")]
    NotAPattern,
    /// A second-order variable or context that is used in two ways.
    #[error("BadUse")]
    BadUse,
    /// A hole for a parameter that nothing gives.
    #[error("UnboundParam")]
    UnboundParam,
    /// A second-order variable that nothing gives.
    #[error("UnboundMeta")]
    UnboundMeta,
    /// A step that has to say at which hypothesis it is made.
    #[error("AtNeeded")]
    AtNeeded,
    /// A step that may not say at which hypothesis it is made.
    #[error("AtRefused")]
    AtRefused,
    /// A step that lacks a term which its rule needs.
    #[error("MissingWith")]
    MissingWith,
    /// A given term that its rule doesn't need.
    #[error("ExtraWith")]
    ExtraWith,
    /// A term that is given twice.
    #[error("TwiceWith")]
    TwiceWith,
    /// A given term with another number of binders than its rule needs.
    #[error("BadArity")]
    BadArity,
    /// A tree of another goal than the one that is due, or one too few.
    #[error("WrongGoal")]
    WrongGoal,
    /// A line at a depth at which it can't stand.
    #[error("BadIndent")]
    BadIndent,
    /// A number of open goals that isn't that of the tree.
    #[error("CountDiffers")]
    CountDiffers,
    /// A label that isn't the one that is due.
    #[error("WrongLabel")]
    WrongLabel,
    /// A byte that differs from the one printed text of what is read.
    #[error("NotCanonical")]
    NotCanonical,
    /// A file that extends itself.
    #[error("Cycle")]
    Cycle,
    /// A rewrite with a condition where none may be.
    #[error("Conditional")]
    Conditional,
    /// A sweep in a sweep.
    #[error("NestedSweep")]
    NestedSweep,
    /// A rule that is said to be derived, with a derivation that isn't one.
    #[error("BadDerivation")]
    BadDerivation,
    /// A node of a checkpoint that no run reaches.
    #[error("BadCheckpoint")]
    BadCheckpoint,
}

/// The one fault of a text, and the byte at which it is, counted from 0.
#[derive(Clone, Copy, Debug, PartialEq, Eq, Error)]
#[error("{why} at byte {at}")]
pub struct TextErr {
    pub at: u64,
    pub why: TextWhy,
}

/// Why a text isn't read.
#[derive(Clone, Copy, Debug, PartialEq, Eq, Error)]
pub enum TextFail {
    /// The text has this fault.
    #[error("{0}")]
    Bad(TextErr),
    #[error("no memory")]
    NoMemory,
}

impl From<NoMemory> for TextFail {
    ghost from_gives = { λ _ e. e ≡ fail.NoMemory };

    fn from(_: NoMemory) -> TextFail {
        TextFail::NoMemory
    }
}
