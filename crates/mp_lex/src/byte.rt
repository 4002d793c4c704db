ghost use Rattle.std.specs.Prelude.{◌≡◌};
ghost use Rattle.mp_lex.specs.Bytes.{is_small, is_cap, is_digit, is_word_byte, is_blank, is_printed, is_comment, is_opening, is_closing, is_single_mark};

/// Whether it is a letter a to z.
pub(crate) fn small(b: u8) -> bool
    ensures { result ≡ is_small b }
{
    b'a' <= b && b <= b'z'
}

/// Whether it is a letter A to Z.
pub(crate) fn cap(b: u8) -> bool
    ensures { result ≡ is_cap b }
{
    b'A' <= b && b <= b'Z'
}

/// Whether it is a digit.
pub fn digit(b: u8) -> bool
    ensures { result ≡ is_digit b }
{
    b'0' <= b && b <= b'9'
}

/// Whether a name goes on with it: a letter, a digit or `_`.
pub(crate) fn word(b: u8) -> bool
    ensures { result ≡ is_word_byte b }
{
    small(b) || cap(b) || digit(b) || b == b'_'
}

/// Whether it separates tokens: a space, a tab, a newline or a carriage return.
pub fn blank(b: u8) -> bool
    ensures { result ≡ is_blank b }
{
    b == b' ' || b == b'\t' || b == b'\n' || b == b'\r'
}

/// Whether it may stand in a string: 0x20 to 0x7E.
pub(crate) fn printed(b: u8) -> bool
    ensures { result ≡ is_printed b }
{
    32 <= b && b <= 126
}

/// Whether it may stand in a comment.
pub(crate) fn comment(b: u8) -> bool
    ensures { result ≡ is_comment b }
{
    printed(b) || b == b'\t' || b == b'\r'
}

/// Whether it opens a bracket that has to be closed.
pub(crate) fn opening(b: u8) -> bool
    ensures { result ≡ is_opening b }
{
    b == b'(' || b == b'[' || b == b'{'
}

/// Whether it closes a bracket.
pub(crate) fn closing(b: u8) -> bool
    ensures { result ≡ is_closing b }
{
    b == b')' || b == b']' || b == b'}'
}

/// Whether it is a mark by itself that no longer mark begins with.
pub(crate) fn single_mark(b: u8) -> bool
    ensures { result ≡ is_single_mark b }
{
    opening(b)
        || closing(b)
        || b == b'&'
        || b == b','
        || b == b';'
        || b == b'.'
        || b == b'@'
        || b == b'|'
}
