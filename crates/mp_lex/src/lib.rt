//! The tokens of a text, or its first lexical fault.
#![tactic(auto)]

mod byte;
mod front;
mod lexer;
pub mod limits;
mod token;

pub use byte::{blank, digit};
pub use front::digits_value;
pub use lexer::{depth_after, next_token, token_laws};
pub use token::{Kind, LexWhy, Next, Token};
