ghost use Rattle.std.specs.Prelude.{◌≡◌, ◌+◌, ◌-◌, ◌≤◌, ◌<◌, ◌^◌, length, IfOk};
ghost use Rattle.mp_names.specs.Table.{Extends};
ghost use Rattle.mp_words.specs.Texts.{LexesText, of_lexical, stopped};

use crate::numbering::word;
use crate::{ReadFail, TextErr, TextFail, TextWhy, Word};
use mp_lex::{LexWhy, Next, depth_after, next_token};
use mp_logic::List;
use mp_names::Names;
use std::alloc::Global;

/// What a reader over the words of this source that stopped makes of it: Syntax, at the word where it is stuck or at the
/// length of the source; or want of memory.
pub fn stopped(source: &[u8], fail: ReadFail) -> TextFail
    ensures { result ≡ stopped source.now fail }
{
    match fail {
        ReadFail::Stuck(Some(at)) => TextFail::Bad(TextErr {
            at: at as u64,
            why: TextWhy::Syntax,
        }),
        ReadFail::Stuck(None) => TextFail::Bad(TextErr {
            at: source.len() as u64,
            why: TextWhy::Syntax,
        }),
        ReadFail::NoMemory => TextFail::NoMemory,
    }
}

fn lexical(why: LexWhy) -> TextWhy
    ensures { result ≡ of_lexical why }
{
    match why {
        LexWhy::BadByte => TextWhy::BadByte,
        LexWhy::LongName => TextWhy::LongName,
        LexWhy::BadNumber => TextWhy::BadNumber,
        LexWhy::BadString => TextWhy::BadString,
        LexWhy::TooNested => TextWhy::TooNested,
    }
}

/// The words of a text, with the names entered; Bad is its first lexical fault, up to which the names are entered.
/// Earlier names keep their numbers, and at most as many are added as the text has bytes.
pub fn lex_text(alloc: Global, names: &mut Names, source: &[u8]) -> Result<List<Word>, TextFail>
    requires room { length names.old + length source.now < 2 ^ 32 - 1 }
    ensures lexes { LexesText names.old source.now result names.new }
    ensures few { IfOk result (λ words. length words ≤ length source.now) }
    ensures grown { Extends names.old names.new }
    ensures few_names { length names.new ≤ length names.old + length source.now }
{
    let mut words = List::new(alloc);
    let mut at = 0u64;
    let mut depth = 0u64;
    loop {
        let token = match next_token(source, at, depth) {
            Next::Token(token) => token,
            Next::End => return Ok(words),
            Next::Bad { at, why } => {
                let why = lexical(why);
                return Err(TextFail::Bad(TextErr { at, why }));
            }
        };
        let Ok(word) = word(alloc, names, source, token) else {
            return Err(TextFail::NoMemory);
        };
        match words.push(word) {
            Ok(()) => {}
            Err(_) => return Err(TextFail::NoMemory),
        }
        depth = depth_after(depth, source[token.from as usize]);
        at = token.to;
    }
}
