//! Patterns as they are written: their grammar, their static rules, and their values.
#![tactic(auto)]

mod holes;
mod nodes;
mod pattern;
mod raw;
mod scope;
mod size;
mod uses;
mod value;

pub use holes::{check_unknown, gather_argument_holes, gather_holes};
pub use nodes::{TOO_DEEP, check_argument_nodes, check_nodes, check_use, first_byte};
pub use pattern::{Context, parse_arguments, parse_contexts, parse_pattern};
pub use raw::{RawParamPat, RawPattern, RawPatternBound};
pub use scope::{check_apart, check_known};
pub use size::{arguments_size, check_size, pattern_size};
pub use uses::{Place, check_alike, gather_argument_uses, gather_uses, names_at, push_place};
pub use value::{build_args, build_pattern, copy_names};
