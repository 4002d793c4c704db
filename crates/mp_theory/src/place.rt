/// A term of a sequent.
#[derive(Clone, Copy)]
pub enum Place {
    /// The conclusion.
    Concl,
    /// The hypothesis with this number, counted from 0.
    Hyp(u32),
}
