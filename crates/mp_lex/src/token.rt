use thiserror::Error;

/// The kinds of tokens. Names have at most 64 bytes, the `'` not counted.
#[derive(Clone, Copy, Debug, PartialEq, Eq)]
pub enum Kind {
    /// A letter a to z, then letters, digits and `_`.
    Small,
    /// A letter A to Z, then letters, digits and `_`.
    Cap,
    /// `'` directly followed by a `Small`.
    SmallVar,
    /// `'` directly followed by a `Cap`.
    CapVar,
    /// `0`, or an optional `-` and digits that don't begin with 0; an `i64`.
    Num,
    /// At most 256 bytes 0x20 to 0x7E between two `"`, in which `"` and `\` are written `\"` and `\\`.
    Str,
    /// One of `{ } [ ] ( ) < > >- ==> --> <-> & , ; : := . @` and the bar.
    Mark,
}

/// A token: its text is the source's bytes from `from` up to `to`, counted from 0.
#[derive(Clone, Copy, Debug, PartialEq, Eq)]
pub struct Token {
    pub kind: Kind,
    pub from: u64,
    pub to: u64,
}

/// What is wrong with the bytes at a place.
#[derive(Clone, Copy, Debug, PartialEq, Eq, Error)]
pub enum LexWhy {
    /// A byte that begins no token and is no separator, or that isn't allowed in a comment.
    #[error("a byte that begins no token")]
    BadByte,
    /// A name of more than 64 bytes.
    #[error("a name of more than 64 bytes")]
    LongName,
    /// Digits after a leading 0, `-` before a 0, or a number outside `i64`.
    #[error("a number with a leading zero or outside of 64 bits")]
    BadNumber,
    /// A string without its end, with another escape, with a byte outside 0x20 to 0x7E, or of more than
    /// 256 bytes between its quotes as written.
    #[error("a string that is too long, or not well formed")]
    BadString,
    /// An opening `(`, `[` or `{` where 250 are open.
    #[error("more than 250 brackets are open")]
    TooNested,
}

/// What comes next in a text from a place on.
#[derive(Clone, Copy, Debug, PartialEq, Eq)]
pub enum Next {
    Token(Token),
    /// Nothing but separators and comments.
    End,
    /// A lexical fault, at the first byte of its token; a bad byte, at that byte.
    Bad { at: u64, why: LexWhy },
}
