use mp_logic::Sym;

/// Where a context begins in the sequent that is made.
#[derive(Clone, Copy)]
pub(crate) struct Start {
    /// The context's name.
    pub name: Sym,
    /// The level of its first variable.
    pub level: u32,
}

/// A place in a schema from which its items are made.
#[derive(Drop)]
pub(crate) struct Site {
    /// The level of each named hypothesis before it, in order.
    pub places: Vec<u32>,
    /// Where the contexts before it begin. Of several entries of one name the last one counts.
    pub starts: Vec<Start>,
    /// The number of hypotheses made so far.
    pub next: u32,
}

/// The scope in which a pattern is made.
#[derive(Clone, Copy)]
pub(crate) struct Span {
    /// The first variable that a binder of the pattern brought.
    pub base: u32,
    /// The number of variables.
    pub scope: u32,
}
