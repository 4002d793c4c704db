ghost use Rattle.std.specs.Prelude.{◌≡◌, ◌-◌, ◌<◌, ◌^◌, ◌++◌, [], None, length, IfOk, OnOk};
ghost use Rattle.std.specs.List.{flat_map};
ghost use Rattle.mp_strategy.specs.declared.limits.TheConstants.{MOST_NODES};
ghost use Rattle.mp_words.specs.Ranges.{number_faults};
ghost use Rattle.mp_treetext.specs.Few.{EachFew};
ghost use Rattle.mp_treetext.specs.Statics.{block_faults, content_faults, failure_faults, written_faults, tree_lines_faults};
ghost use Rattle.mp_treetext.specs.Values.{block_value, failure_of, file_value, just_number, justs_of, lines_of, proof_of, step_justs, tac_of};

use crate::place::spaces_at;
use crate::printed::Printed;
use crate::raw::{RawBlock, RawFailure, RawState, RawTreeLine};
use crate::roots::{Line, tree_of_lines};
use mp_logic::{JustId, List, NoMemory};
use mp_steptext::{RawStep, build_just};
use mp_strategy::TacId;
use mp_termtext::{RawBound, build_sequent};
use mp_theory::{Just, Theory};
use mp_words::RawNumber;
use std::alloc::Global;

/// Appends the justification of the step, if there is one, and answers its number.
fn push_step(
    alloc: Global,
    theory: &Theory,
    step: &Option<RawStep<RawBound>>,
    justs: &mut List<Just>,
) -> Result<Option<JustId>, NoMemory>
    requires faultless { written_faults theory.now step.now ≡ [] }
    requires few { length justs.old < 2 ^ 32 }
    ensures number { IfOk result (λ just. just ≡ just_number (length justs.old) step.now) }
    ensures justs { OnOk result (justs.new ≡ justs.old ++ step_justs theory.now step.now) }
{
    let Some(step) = step else {
        return Ok(None);
    };
    let number = justs.len() as u32;
    let just = build_just(alloc, theory, step)?;
    match justs.push(just) {
        Ok(()) => Ok(Some(JustId(number))),
        Err((_, refused)) => Err(refused),
    }
}

/// The lines that are written, and the justifications of their steps, in their order.
fn build_lines(
    alloc: Global,
    theory: &Theory,
    source: &[u8],
    raws: &[RawTreeLine],
) -> Result<(List<Line>, List<Just>), NoMemory>
    requires faultless { flat_map (content_faults theory.now) raws.now ≡ [] }
    requires few { length raws.now < 2 ^ 32 }
    ensures lines { IfOk result (λ built. built.0 ≡ lines_of source.now 0 raws.now) }
    ensures justs { IfOk result (λ built. built.1 ≡ justs_of theory.now raws.now) }
{
    let mut lines = List::new(alloc);
    let mut justs = List::new(alloc);
    for raw in raws {
        let just = push_step(alloc, theory, &raw.step, &mut justs)?;
        let line = Line {
            depth: spaces_at(source, raw.at) / 2,
            goal: build_sequent(alloc, &raw.goal)?,
            just,
        };
        if let Err((_, refused)) = lines.push(line) {
            return Err(refused);
        }
    }
    Ok((lines, justs))
}

/// The number of a strategy, which is written as it counts from 1.
fn build_tac(number: RawNumber) -> TacId
    requires { number_faults 1 MOST_NODES number ≡ [] }
    ensures { result ≡ tac_of number }
{
    TacId((number.value - 1) as u32)
}

/// The proof whose lines are written, where no static rule is broken.
fn build_proof(
    alloc: Global,
    theory: &Theory,
    source: &[u8],
    raws: &[RawTreeLine],
) -> Result<Printed, NoMemory>
    requires faultless { tree_lines_faults theory.now source.now None raws.now ≡ [] }
    requires few { length raws.now < 2 ^ 32 }
    ensures { IfOk result (λ printed. printed ≡ proof_of theory.now source.now raws.now) }
{
    let (lines, justs) = build_lines(alloc, theory, source, raws)?;
    let tree = tree_of_lines(alloc, lines)?;
    Ok(Printed::Proof { tree, justs })
}

/// The failure that is written, where no static rule is broken.
fn build_failure(alloc: Global, raw: &RawFailure) -> Result<Printed, NoMemory>
    requires { failure_faults raw.now ≡ [] }
    ensures { IfOk result (λ printed. printed ≡ failure_of raw.now) }
{
    let goal = build_sequent(alloc, &raw.goal)?;
    Ok(Printed::Failed {
        kind: raw.kind,
        tac: build_tac(raw.tac),
        goal,
    })
}

/// What a block stands for, where no static rule is broken.
fn build_block(
    alloc: Global,
    theory: &Theory,
    source: &[u8],
    raw: &RawBlock,
) -> Result<Printed, NoMemory>
    requires faultless { block_faults theory.now source.now raw.now ≡ [] }
    requires few { length raw.now.lines < 2 ^ 32 }
    ensures { IfOk result (λ printed. printed ≡ block_value theory.now source.now raw.now) }
{
    match &raw.goal.state {
        RawState::Failed(failure) => build_failure(alloc, failure),
        _ => build_proof(alloc, theory, source, raw.lines.as_slice()),
    }
}

/// What the blocks of a file stand for, where no static rule is broken.
pub(crate) fn build_file(
    alloc: Global,
    theory: &Theory,
    source: &[u8],
    raws: &List<RawBlock>,
) -> Result<List<Printed>, NoMemory>
    requires faultless { flat_map (block_faults theory.now source.now) raws.now ≡ [] }
    requires few { EachFew (2 ^ 32 - 1) raws.now }
    ensures { IfOk result (λ printed. printed ≡ file_value theory.now source.now raws.now) }
{
    let mut built = List::with_capacity(alloc, raws.len())?;
    for raw in raws.as_slice() {
        let printed = build_block(alloc, theory, source, raw)?;
        if let Err((_, refused)) = built.push(printed) {
            return Err(refused);
        }
    }
    Ok(built)
}
