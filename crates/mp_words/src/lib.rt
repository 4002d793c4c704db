//! The words that all readers go over, the parts that grammars are put together from, and the one fault of a text.
#![tactic(auto)]

mod fail;
mod fault;
mod lexed;
mod list;
mod numbering;
mod parts;
mod range;
mod raw;
mod second;
mod spelling;
mod word;

pub use fail::{TextErr, TextFail, TextWhy};
pub use fault::{behind, least_is_least, sooner_if, sooner_of};
pub use lexed::{lex_text, stopped};
pub use list::{Beginning, Reader, listed, many, repeated, separated, whole};
pub use parts::{
    ReadFail, behind_front, capital_at, capital_variable_at, front, keyword, mark, marked, name_at,
    name_behind, number_at, spelled, stuck,
};
pub use range::{check_number, check_written_number};
pub use raw::{RawName, RawNumber};
pub use second::{Named, check_second};
pub use word::{Keyword, Mark, What, Word};
