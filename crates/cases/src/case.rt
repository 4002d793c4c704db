//! Cases as they are read: their texts by parts.

use crate::text::Part;

/// What a case says of its run, or what the cases after a `base` have unless they say otherwise.
#[derive(Drop)]
pub struct Fields {
    /// The command's words.
    pub words: Option<Vec<Vec<Part>>>,
    /// The files by their names, no name twice.
    pub files: Vec<(String, Vec<Part>)>,
    /// The numbers of the reads that fail, counted from 1.
    pub reads: Option<Vec<u64>>,
    /// The writes that fail, counted from 1, each with the number of bytes that it takes.
    pub writes: Option<Vec<(u64, u64)>>,
    /// What has to be written.
    pub answer: Option<Answer>,
    /// The status with which the run has to end.
    pub status: Option<u8>,
}

/// What has to be written.
#[derive(Drop)]
pub enum Answer {
    /// Whatever it is.
    Any,
    /// These bytes.
    Out(Vec<Part>),
    /// These bytes, each text by one put.
    Puts(Vec<Vec<Part>>),
}

/// A run, and what is due of it.
#[derive(Drop)]
pub struct Case {
    pub name: String,
    /// The line on which it begins, counted from 1.
    pub line: u64,
    /// The number of the base after which it stands.
    pub base: usize,
    pub fields: Fields,
}

/// The cases of a file.
#[derive(Drop)]
pub struct Suite {
    /// Texts by their names, no name twice.
    pub texts: Vec<(String, Vec<u8>)>,
    /// The bases. The first one says nothing: it is that of the cases before the first `base`.
    pub bases: Vec<Fields>,
    pub cases: Vec<Case>,
}
