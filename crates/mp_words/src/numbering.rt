ghost use Rattle.std.specs.Prelude.{◌≡◌, ◌+◌, ◌-◌, ◌<◌, ◌≤◌, ◌^◌, length, take, drop, OnOk, IfOk};
ghost use Rattle.mp_names.specs.Table.{Extends};
ghost use Rattle.mp_lex.specs.Spans.{IsSpan, HasItsKind};
ghost use Rattle.mp_words.specs.Words.{opens_line, piece_of, names_with, what_of, word_of};

use crate::spelling::{behind_first, content, integer, keyword, mark, numbered};
use crate::{What, Word};
use mp_lex::{Kind, Token, blank};
use mp_logic::NoMemory;
use mp_names::Names;
use std::alloc::Global;

/// The word of a token; its name is entered.
pub(crate) fn word(
    alloc: Global,
    names: &mut Names,
    source: &[u8],
    token: Token,
) -> Result<Word, NoMemory>
    requires room { length names.old < 2 ^ 32 - 1 }
    requires small { length source.now < 2 ^ 32 }
    requires span { IsSpan source.now token }
    requires form { HasItsKind source.now token }
    ensures word { IfOk result (λ word. word ≡ word_of names.old source.now token) }
    ensures table { OnOk result (names.new ≡ names_with names.old (piece_of source.now token)) }
    ensures grown { Extends names.old names.new }
    ensures few { length names.new ≤ length names.old + 1 }
{
    let what = what(alloc, names, source, token)?;
    let at = token.from as u32;
    let opens_line = opens_line(source, token.from);
    Ok(Word {
        at,
        opens_line,
        what,
    })
}

/// Whether no token stands before this place on its line.
fn opens_line(source: &[u8], at: u64) -> bool
    requires { at ≤ length source.now }
    ensures { result ≡ opens_line source.now at }
{
    let mut left = at;
    while left > 0 {
        left -= 1;
        let before = source[left as usize];
        if before == b'\n' {
            return true;
        }
        if !blank(before) {
            return false;
        }
    }
    true
}

/// What a token is; its name is entered.
fn what(alloc: Global, names: &mut Names, source: &[u8], token: Token) -> Result<What, NoMemory>
    requires room { length names.old < 2 ^ 32 - 1 }
    requires span { IsSpan source.now token }
    requires form { HasItsKind source.now token }
    ensures what { IfOk result (λ what. what ≡ what_of names.old (piece_of source.now token)) }
    ensures table { OnOk result (names.new ≡ names_with names.old (piece_of source.now token)) }
    ensures grown { Extends names.old names.new }
    ensures few { length names.new ≤ length names.old + 1 }
{
    let text = text_at(source, token.from, token.to);
    match token.kind {
        Kind::Small => {
            let name = names.number(alloc, text)?;
            Ok(What::Small {
                name,
                keyword: keyword(text),
            })
        }
        Kind::Cap => {
            let name = names.number(alloc, text)?;
            Ok(What::Cap(name))
        }
        Kind::SmallVar => {
            let bare = behind_first(text);
            let name = names.number(alloc, bare)?;
            Ok(What::SmallVar {
                name,
                numbered: numbered(bare),
            })
        }
        Kind::CapVar => {
            let name = names.number(alloc, behind_first(text))?;
            Ok(What::CapVar(name))
        }
        Kind::Num => Ok(What::Num(integer(text))),
        Kind::Str => {
            let content = content(alloc, text)?;
            let name = names.number(alloc, content.as_slice())?;
            Ok(What::Str(name))
        }
        Kind::Mark => Ok(What::Mark(mark(text))),
    }
}

/// The bytes of a token.
fn text_at(source: &[u8], from: u64, to: u64) -> &[u8]
    requires order { from ≤ to }
    requires within { to ≤ length source.now }
    ensures { result.now ≡ take (to - from) (drop from source.now) }
{
    &source[from as usize..to as usize]
}
