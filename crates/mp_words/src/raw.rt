use mp_logic::Sym;

/// A name as it is written, and its first byte.
#[derive(Clone, Copy, Debug, PartialEq, Eq)]
pub struct RawName {
    pub name: Sym,
    pub at: u32,
}

/// A number as it is written, and its first byte.
#[derive(Clone, Copy, Debug, PartialEq, Eq)]
pub struct RawNumber {
    pub value: i64,
    pub at: u32,
}
