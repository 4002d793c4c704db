ghost use Rattle.std.specs.Prelude.{◌≡◌, ◌+◌, ◌++◌, ◌≤◌, ℕ, List, Some, nat_eq, nat_lt, ◌&&◌, get_or, length, drop, MatchOption, IfOk};
ghost use Rattle.mp_treetext.specs.Differences.{difference};
ghost use Rattle.mp_treetext.specs.Printed.{trees_text};

use crate::printed::Printed;
use crate::result::push_printed;
use mp_logic::{NoMemory, Sym};
use mp_names::Names;
use mp_theory::Theory;
use std::alloc::Global;

/// Whether this byte stands here in the source.
fn stands(source: &[u8], here: u64, byte: u8) -> bool
    ensures { result ≡ (nat_lt here (length source.now) && nat_eq (get_or source.now here 0) byte) }
{
    here < source.len() as u64 && source[here as usize] == byte
}

/// The byte at which the source differs from a piece of the wanted text that begins here; None where all of the piece
/// stands there.
fn piece_difference(source: &[u8], at: u64, piece: &[u8]) -> Option<u64>
    requires { at ≤ length source.now }
    ensures within { MatchOption result (at + length piece.now ≤ length source.now) (λ place. place ≤ length source.now) }
    ensures differs { (more : List ℕ) → MatchOption result (difference at (drop at source.now) (piece.now ++ more) ≡ difference (at + length piece.now) (drop (at + length piece.now) source.now) more) (λ place. difference at (drop at source.now) (piece.now ++ more) ≡ Some place) }
{
    let mut here = at;
    for byte in piece {
        if !stands(source, here, *byte) {
            return Some(here);
        }
        here += 1;
    }
    None
}

/// The byte at which the source differs from the printed text of these blocks of goals; None where it is that text.
pub(crate) fn file_difference(
    alloc: Global,
    names: &Names,
    theory: &Theory,
    goals: &[Sym],
    source: &[u8],
    blocks: &[Printed],
) -> Result<Option<u64>, NoMemory>
    requires { length blocks.now ≡ length goals.now }
    ensures { IfOk result (λ found. found ≡ difference 0 source.now (trees_text names.now theory.now goals.now blocks.now)) }
{
    let mut text = Vec::new(alloc);
    let mut at = 0u64;
    for place in 0..blocks.len() {
        text.truncate(0);
        push_printed(
            alloc,
            &mut text,
            names,
            theory,
            goals[place],
            &blocks[place],
        )?;
        if let Some(place) = piece_difference(source, at, text.as_slice()) {
            return Ok(Some(place));
        }
        at += text.len() as u64;
    }
    if at < source.len() as u64 {
        Ok(Some(at))
    } else {
        Ok(None)
    }
}
