ghost use Rattle.std.specs.Prelude.{◌≡◌, ◌≤◌, drop, get_or, length, nat_le, ◌&&◌};
ghost use Rattle.mp_lex.specs.Bytes.{is_opening};
ghost use Rattle.mp_lex.specs.Lex.{IfToken, IsNext, depth_after};
ghost use Rattle.mp_lex.specs.Spans.{AllAreFound, FaultIsFirst, HasItsKind, IsSpan, TokensAre};

use crate::byte::{closing, opening};
use crate::front::{Front, look};
use crate::limits::MOST_OPEN;
use crate::{LexWhy, Next, Token};

/// What comes next in the text from a place on, where so many brackets are open. It takes no memory.
pub fn next_token(source: &[u8], from: u64, depth: u64) -> Next
    requires within { from ≤ length source.now }
    requires shallow { depth ≤ MOST_OPEN }
    ensures next { IsNext source.now from depth result }
    ensures behind { IfToken result (λ t. from ≤ t.from) }
    ensures span { IfToken result (IsSpan source.now) }
    ensures kind { IfToken result (HasItsKind source.now) }
    ensures shallow { IfToken result (λ t. depth_after depth (get_or source.now t.from 0) ≤ MOST_OPEN) }
{
    let mut at = from as usize;
    while at < source.len() {
        match look(behind(source, at)) {
            Front::Passed(len) => at += len,
            Front::Bad { ahead, why } => {
                let at = (at + ahead) as u64;
                return Next::Bad { at, why };
            }
            Front::Token { kind, len } => {
                if too_deep(depth, source[at]) {
                    let why = LexWhy::TooNested;
                    return Next::Bad { at: at as u64, why };
                }
                return Next::Token(Token {
                    kind,
                    from: at as u64,
                    to: (at + len) as u64,
                });
            }
        }
    }
    Next::End
}

/// The tokens of a text are of their kinds, longest, in order, and between them are separators and comments alone. A
/// fault is the first one.
pub fn token_laws()
    ensures tokens { TokensAre }
    ensures fault { FaultIsFirst }
    ensures found { AllAreFound }
{}

/// The text from a place on.
fn behind(source: &[u8], at: usize) -> &[u8]
    requires { at ≤ length source.now }
    ensures { result.now ≡ drop at source.now }
{
    &source[at..]
}

/// Whether the byte opens a bracket where as many are open as may be.
fn too_deep(depth: u64, byte: u8) -> bool
    ensures { result ≡ (is_opening byte && nat_le MOST_OPEN depth) }
{
    opening(byte) && depth >= MOST_OPEN
}

/// How many brackets are open after a byte.
pub fn depth_after(depth: u64, byte: u8) -> u64
    requires { depth ≤ MOST_OPEN }
    ensures { result ≡ depth_after depth byte }
{
    if opening(byte) {
        depth + 1
    } else if closing(byte) {
        depth.saturating_sub(1)
    } else {
        depth
    }
}
