//! Calls of the libraries on values that no command gives them, as tables.
//!
//! A row is a case that no text can show: what the program answers to texts stands in the crate `cases`. The
//! libraries have no tests of their own, so that each is proved once. No program uses this crate.
#![tactic(auto)]

#[cfg(test)]
mod broken;
#[cfg(test)]
mod engine_tests;
#[cfg(test)]
mod evaluation_tests;
#[cfg(test)]
mod faults_tests;
#[cfg(test)]
mod guards;
#[cfg(test)]
mod halving;
#[cfg(test)]
mod matching_tests;
#[cfg(test)]
mod names_tests;
#[cfg(test)]
mod ports_tests;
#[cfg(test)]
mod rewriting_tests;
#[cfg(test)]
mod rows;
#[cfg(test)]
mod table;
#[cfg(test)]
mod terms_tests;
#[cfg(test)]
mod theory_tests;
#[cfg(test)]
mod toy;
#[cfg(test)]
mod tree_tests;
