use mp_logic::Sym;

/// A mark, named by what it stands for in the grammars.
#[derive(Clone, Copy, Debug, PartialEq, Eq)]
pub enum Mark {
    /// `{`
    OpenBrace,
    /// `}`
    CloseBrace,
    /// `[`
    OpenBracket,
    /// `]`
    CloseBracket,
    /// `(`
    OpenParenthesis,
    /// `)`
    CloseParenthesis,
    /// `<`
    Less,
    /// `>`
    Greater,
    /// `>-`
    Turnstile,
    /// `==>`
    Yields,
    /// `-->`
    Provided,
    /// `<->`
    Rewrites,
    /// `&`
    And,
    /// `,`
    Comma,
    /// `;`
    Semicolon,
    /// `:`
    Colon,
    /// `:=`
    Becomes,
    /// `.`
    Dot,
    /// `@`
    At,
    /// `|`
    Bar,
}

/// A name that some grammar reads as a word of its own. No word is reserved: each of these is a name as well.
#[derive(Clone, Copy, Debug, PartialEq, Eq)]
pub enum Keyword {
    Rule,
    Rewrite,
    Goal,
    Fuel,
    By,
    Then,
    ThenL,
    OrElse,
    Try,
    Repeat,
    Progress,
    Complete,
    Race,
    Fail,
    Id,
    Rw,
    Concl,
    Hyp,
    At,
    With,
    Closed,
    Open,
    Failed,
    Strategy,
    Claim,
    Send,
    Again,
    Die,
    Lose,
    Reissue,
}

/// What a token is, with the number of its name in place of the bytes.
#[derive(Clone, Copy, Debug, PartialEq, Eq)]
pub enum What {
    /// A name that begins with a small letter, and the word of a grammar that it spells, if any.
    Small { name: Sym, keyword: Option<Keyword> },
    /// A name that begins with a capital letter.
    Cap(Sym),
    /// A variable, by its name without the quote; `numbered` is `k` where the name is `x` followed by `k` in
    /// decimal, from 1 and without a leading zero.
    SmallVar { name: Sym, numbered: Option<u32> },
    /// A second-order variable, by its name without the quote.
    CapVar(Sym),
    Num(i64),
    /// A string, by its content.
    Str(Sym),
    Mark(Mark),
}

/// A token: its first byte, whether no other one stands before it on its line, and what it is. Grammars are over words.
#[derive(Clone, Copy, Debug, PartialEq, Eq)]
pub struct Word {
    pub at: u32,
    pub opens_line: bool,
    pub what: What,
}
