ghost use Rattle.std.specs.Prelude.{◌≡◌, ℕ, ◌+◌, ◌<◌, ◌≤◌, nat_le, nat_lt, length, map, slice_index, IsTrue};
ghost use Rattle.std.specs.List.{list_all};
ghost use Rattle.mp_strategy.specs.declared.limits.TheConstants.{MOST_DEPTH, MOST_NODES};
ghost use Rattle.mp_strategy.specs.Fits.{places, parts_of, is_behind as is_behind_of, row_fits as row_fits_of, rows_fit, depths as depths_of, fits_of};
ghost use Rattle.mp_logic.specs.Lists.{greatest};

use crate::limits::{MOST_BRANCHES, MOST_DEPTH, MOST_NODES, MOST_REPEATS};
use crate::{Tac, TacId};
use mp_logic::List;

/// Whether the table fits so many justifications: it has 1 to 4,096 entries, the parts of each entry have
/// greater numbers and are in the table, its justifications are in range, a race has 1 to 8 branches, a
/// strategy repeats at most 400 times, and none is deeper than 64. A strategy without parts has depth 1, and any other is one deeper than its deepest part.
pub fn fits(justs: u32, tacs: &List<Tac>) -> bool
    ensures { result ≡ fits_of justs tacs.now }
{
    let entries = tacs.as_slice();
    !entries.is_empty()
        && entries.len() <= MOST_NODES
        && each_fits(justs, entries)
        && is_shallow(justs, entries)
}

/// Whether the parts of each entry come after it in the table, its justifications are in range, and its counts are within the limits.
#[tactic(auto, using(crate::proofs::Tables::rows_step))]
fn each_fits(justs: u32, entries: &[Tac]) -> bool
    ensures { result ≡ rows_fit justs 0 entries.now }
{
    for here in 0..entries.len() {
        if !row_fits(justs, here, entries.len(), &entries[here]) {
            return false;
        }
    }
    true
}

/// Whether an entry's parts and justifications are there, and its counts are within the limits.
fn row_fits(justs: u32, here: usize, count: usize, entry: &Tac) -> bool
    ensures { result ≡ row_fits_of justs here count entry.now }
{
    match entry {
        Tac::Id => true,
        Tac::Fail => true,
        Tac::Step(just) => just.0 < justs,
        Tac::Then(first, second) => {
            is_behind(here, count, *first) && is_behind(here, count, *second)
        }
        Tac::ThenL(first, others) => {
            is_behind(here, count, *first) && are_behind(here, count, others.as_slice())
        }
        Tac::Else(first, second) => {
            is_behind(here, count, *first) && is_behind(here, count, *second)
        }
        Tac::Race(branches) => {
            are_behind(here, count, branches.as_slice())
                && 0 < branches.len()
                && branches.len() <= MOST_BRANCHES
        }
        Tac::Repeat(times, part) => is_behind(here, count, *part) && *times <= MOST_REPEATS,
        Tac::Progress(part) => is_behind(here, count, *part),
        Tac::Complete(part) => is_behind(here, count, *part),
    }
}

fn is_behind(here: usize, count: usize, part: TacId) -> bool
    ensures { result ≡ is_behind_of here count part.0 }
{
    let place = part.0 as usize;
    here < place && place < count
}

#[tactic(auto, using(crate::proofs::Tables::places_step))]
fn are_behind(here: usize, count: usize, parts: &[TacId]) -> bool
    ensures { result ≡ list_all (is_behind_of here count) (places parts.now) }
{
    for part in parts {
        if !is_behind(here, count, *part) {
            return false;
        }
    }
    true
}

/// Whether no entry is deeper than 64. It goes from the last entry to the first, so that the depths of
/// the parts are known.
fn is_shallow(justs: u32, entries: &[Tac]) -> bool
    requires few { length entries.now ≤ MOST_NODES }
    requires fit { IsTrue (rows_fit justs 0 entries.now) }
    ensures { result ≡ list_all (λ depth. nat_le depth MOST_DEPTH) (depths_of 0 entries.now) }
{
    let mut depths = [0u8; MOST_NODES];
    for behind in 0..entries.len() {
        let here = entries.len() - 1 - behind;
        let depth = depth_by(&depths, &entries[here]);
        if depth > MOST_DEPTH {
            return false;
        }
        depths[here] = depth;
    }
    true
}

/// One more than the greatest depth of the parts.
fn depth_by(depths: &[u8; MOST_NODES], entry: &Tac) -> u8
    requires parts { IsTrue (list_all (λ place. nat_lt place MOST_NODES) (parts_of entry.now)) }
    requires shallow { (k : ℕ) → slice_index depths.now k ≤ MOST_DEPTH }
    ensures { result ≡ 1 + greatest (map (slice_index depths.now) (parts_of entry.now)) }
{
    match entry {
        Tac::Id => 1,
        Tac::Fail => 1,
        Tac::Step(_) => 1,
        Tac::Then(first, second) => 1 + depths[first.0 as usize].max(depths[second.0 as usize]),
        Tac::ThenL(first, others) => {
            1 + depths[first.0 as usize].max(deepest(depths, others.as_slice()))
        }
        Tac::Else(first, second) => 1 + depths[first.0 as usize].max(depths[second.0 as usize]),
        Tac::Race(branches) => 1 + deepest(depths, branches.as_slice()),
        Tac::Repeat(_, part) => 1 + depths[part.0 as usize],
        Tac::Progress(part) => 1 + depths[part.0 as usize],
        Tac::Complete(part) => 1 + depths[part.0 as usize],
    }
}

/// The greatest depth of the parts, and 0 where there are none.
#[tactic(auto, using(crate::proofs::Tables::places_step))]
fn deepest(depths: &[u8; MOST_NODES], parts: &[TacId]) -> u8
    requires parts { IsTrue (list_all (λ place. nat_lt place MOST_NODES) (places parts.now)) }
    requires shallow { (k : ℕ) → slice_index depths.now k ≤ MOST_DEPTH }
    ensures value { result ≡ greatest (map (slice_index depths.now) (places parts.now)) }
    ensures shallow { result ≤ MOST_DEPTH }
{
    let mut most = 0u8;
    for part in parts {
        most = most.max(depths[part.0 as usize]);
    }
    most
}
