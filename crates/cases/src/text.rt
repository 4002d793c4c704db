//! Texts by parts, which are made when they are needed.

use std::alloc::{AllocError, Global};

/// A part of a text.
#[derive(Drop)]
pub enum Part {
    /// These bytes.
    Bytes(Vec<u8>),
    /// These bytes so many times.
    Times(u64, Vec<u8>),
    /// The pieces, with the number between each two of them, for each number of a range.
    Counted {
        first: u64,
        last: u64,
        pieces: Vec<Vec<u8>>,
    },
    /// The text of this number.
    Named(usize),
}

/// About how many bytes of a repeated piece are appended at once.
const BLOCK: u64 = 65536;

/// Appends the bytes so many times.
fn push_times(
    made: &mut Vec<u8>,
    alloc: Global,
    piece: &[u8],
    times: u64,
) -> Result<(), AllocError> {
    let step = BLOCK / (piece.len() as u64).max(1);
    if step > 1 && times > step {
        let block = piece.repeat(alloc, step as usize)?;
        for _ in 0..times / step {
            made.extend_from_slice(block.as_slice())?;
        }
        return push_each(made, piece, times % step);
    }
    push_each(made, piece, times)
}

/// Appends the bytes so many times, one by one.
fn push_each(made: &mut Vec<u8>, piece: &[u8], times: u64) -> Result<(), AllocError> {
    for _ in 0..times {
        made.extend_from_slice(piece)?;
    }
    Ok(())
}

/// Appends the pieces with the bytes between each two of them.
pub fn push_joined(
    made: &mut Vec<u8>,
    pieces: &[Vec<u8>],
    between: &[u8],
) -> Result<(), AllocError> {
    for (place, piece) in pieces.iter().enumerate() {
        if place > 0 {
            made.extend_from_slice(between)?;
        }
        made.extend_from_slice(piece.as_slice())?;
    }
    Ok(())
}

/// Appends the pieces for each number of the range.
fn push_counted(
    made: &mut Vec<u8>,
    alloc: Global,
    first: u64,
    last: u64,
    pieces: &[Vec<u8>],
) -> Result<(), AllocError> {
    for number in first..=last {
        let digits = format!(in alloc; "{number}")?;
        push_joined(made, pieces, digits.as_bytes())?;
    }
    Ok(())
}

/// Appends the bytes of the parts. A named text is one of `texts`.
pub fn push_text(
    made: &mut Vec<u8>,
    alloc: Global,
    texts: &[(String, Vec<u8>)],
    parts: &[Part],
) -> Result<(), AllocError> {
    for part in parts {
        match part {
            Part::Bytes(bytes) => made.extend_from_slice(bytes.as_slice())?,
            Part::Times(times, piece) => push_times(made, alloc, piece.as_slice(), *times)?,
            Part::Counted {
                first,
                last,
                pieces,
            } => push_counted(made, alloc, *first, *last, pieces.as_slice())?,
            Part::Named(place) => {
                if let Some(text) = texts.get(*place) {
                    made.extend_from_slice(text.1.as_slice())?;
                }
            }
        }
    }
    Ok(())
}

/// The bytes of the parts. A named text is one of `texts`.
pub fn make(
    alloc: Global,
    texts: &[(String, Vec<u8>)],
    parts: &[Part],
) -> Result<Vec<u8>, AllocError> {
    let mut made = Vec::new(alloc);
    push_text(&mut made, alloc, texts, parts)?;
    Ok(made)
}
