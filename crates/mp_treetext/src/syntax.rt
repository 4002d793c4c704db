ghost use Rattle.std.specs.Prelude.{◌≡◌, ◌+◌, ◌<◌, ◌≤◌, [], length, drop, MatchOption, None, Some, IfOk};
ghost use Rattle.mp_words.specs.Grammars.{taken, whole};
ghost use Rattle.mp_words.specs.Reading.{Reads};
ghost use Rattle.mp_treetext.specs.Few.{EachFew};
ghost use Rattle.mp_treetext.specs.Grammar.{barred, begins_tree_line, block, failed_line, file, goal_line, goal_state, lines_after, node, strategy_number, tree_line};
ghost use Rattle.mp_treetext.specs.Kinds.{failure_kind_at};
ghost use Rattle.mp_treetext.specs.OneLine.{on_one_line};

use crate::kind::failure_kind_named;
use crate::line::{parse_on_line, split_line, stopped_before};
use crate::raw::{RawBlock, RawFailure, RawGoalLine, RawState, RawTreeLine};
use mp_logic::List;
use mp_names::Names;
use mp_steptext::{GivenTerm, RawStep, parse_step};
use mp_strategy::Kind;
use mp_termtext::{RawBound, RawSequent, parse_sequent};
use mp_words::{
    Beginning, Keyword, Mark, RawNumber, ReadFail, Reader, What, Word, front, keyword, mark,
    name_behind, number_at, repeated, spelled, stuck,
};
use std::alloc::Global;

/// Reads a bar and a sequent.
fn parse_barred(alloc: Global, words: &[Word]) -> Result<(RawSequent, &[Word]), ReadFail>
    ensures reads { Reads (λ x. (x.0, x.1.now)) barred words.now result }
    ensures shorter { IfOk result (λ x. length x.1.now < length words.now) }
{
    match mark(words, Mark::Bar) {
        Some(rest) => parse_sequent(alloc, rest),
        None => Err(stuck(words)),
    }
}

/// Reads `open`, or a step.
fn parse_node(
    alloc: Global,
    words: &[Word],
) -> Result<(Option<RawStep<RawBound>>, &[Word]), ReadFail>
    ensures reads { Reads (λ x. (x.0, x.1.now)) node words.now result }
    ensures shorter { IfOk result (λ x. length x.1.now < length words.now) }
{
    if let Some(rest) = keyword(words, Keyword::Open) {
        return Ok((None, rest));
    }
    let (step, rest) = parse_step::<GivenTerm>(alloc, words)?;
    Ok((Some(step), rest))
}

impl Reader for RawTreeLine {
    type Raw = RawTreeLine;

    ghost grammar = { tree_line };

    /// Reads `open` or a step, a bar, and a sequent.
    fn read(alloc: Global, words: &[Word]) -> Result<(RawTreeLine, &[Word]), ReadFail> {
        let at = front(words);
        let (step, rest) = parse_node(alloc, words)?;
        let (goal, rest) = parse_barred(alloc, rest)?;
        Ok((RawTreeLine { at, step, goal }, rest))
    }
}

/// A line of a tree that stands on one line of the text.
struct TreeLineAlone;

impl Reader for TreeLineAlone {
    type Raw = RawTreeLine;

    ghost grammar = { on_one_line tree_line };

    /// Reads a line of a tree.
    fn read(alloc: Global, words: &[Word]) -> Result<(RawTreeLine, &[Word]), ReadFail> {
        parse_on_line::<RawTreeLine>(alloc, words)
    }
}

impl Beginning for TreeLineAlone {
    ghost begun = { begins_tree_line };

    /// Whether there are words, and they don't begin the block of a goal.
    fn begins(words: &[Word]) -> bool {
        !words.is_empty() && !spelled(words, Keyword::Goal)
    }
}

/// The kind of failure at the front, and what is after it.
fn failure_kind_at<'a>(names: &Names, words: &'a [Word]) -> Option<(Kind, &'a [Word])>
    ensures { MatchOption result (taken (failure_kind_at names.now) words.now ≡ None) (λ p. (taken (failure_kind_at names.now) words.now ≡ Some p.0) × (p.1.now ≡ drop 1 words.now)) }
{
    let (word, rest) = words.split_first()?;
    let What::Cap(name) = word.what else {
        return None;
    };
    match failure_kind_named(names.text(name)) {
        Some(kind) => Some((kind, rest)),
        None => None,
    }
}

/// Reads `at`, `strategy` and a number.
fn parse_strategy_number(words: &[Word]) -> Result<(RawNumber, &[Word]), ReadFail>
    ensures reads { Reads (λ x. (x.0, x.1.now)) strategy_number words.now result }
    ensures shorter { IfOk result (λ x. length x.1.now < length words.now) }
{
    let Some(rest) = keyword(words, Keyword::At) else {
        return Err(stuck(words));
    };
    let Some(rest) = keyword(rest, Keyword::Strategy) else {
        return Err(stuck(rest));
    };
    match number_at(rest) {
        Some(read) => Ok(read),
        None => Err(stuck(rest)),
    }
}

/// Reads what is after `failed`: the kind, the number of the strategy, a bar, and a sequent.
fn parse_failure<'a>(
    alloc: Global,
    names: &Names,
    words: &'a [Word],
) -> Result<(RawFailure, &'a [Word]), ReadFail>
    ensures reads { Reads (λ x. (x.0, x.1.now)) (failed_line names.now) words.now result }
    ensures shorter { IfOk result (λ x. length x.1.now < length words.now) }
{
    let Some((kind, rest)) = failure_kind_at(names, words) else {
        return Err(stuck(words));
    };
    let (tac, rest) = parse_strategy_number(rest)?;
    let (goal, rest) = parse_barred(alloc, rest)?;
    Ok((RawFailure { kind, tac, goal }, rest))
}

/// Reads what is after the colon: `closed`; a number and `open`; or `failed` and the failure.
fn parse_goal_state<'a>(
    alloc: Global,
    names: &Names,
    words: &'a [Word],
) -> Result<(RawState, &'a [Word]), ReadFail>
    ensures reads { Reads (λ x. (x.0, x.1.now)) (goal_state names.now) words.now result }
    ensures shorter { IfOk result (λ x. length x.1.now < length words.now) }
{
    if let Some(rest) = keyword(words, Keyword::Closed) {
        return Ok((RawState::Closed, rest));
    }
    if let Some(rest) = keyword(words, Keyword::Failed) {
        let (failure, rest) = parse_failure(alloc, names, rest)?;
        return Ok((RawState::Failed(failure), rest));
    }
    let Some((count, rest)) = number_at(words) else {
        return Err(stuck(words));
    };
    match keyword(rest, Keyword::Open) {
        Some(rest) => Ok((RawState::Open(count), rest)),
        None => Err(stuck(rest)),
    }
}

/// Reads `goal`, a name, a colon, and what became of the goal.
fn parse_goal_line<'a>(
    alloc: Global,
    names: &Names,
    words: &'a [Word],
) -> Result<(RawGoalLine, &'a [Word]), ReadFail>
    ensures reads { Reads (λ x. (x.0, x.1.now)) (goal_line names.now) words.now result }
    ensures shorter { IfOk result (λ x. length x.1.now < length words.now) }
{
    let (name, rest) = name_behind(words, Keyword::Goal)?;
    let Some(rest) = mark(rest, Mark::Colon) else {
        return Err(stuck(rest));
    };
    let at = front(rest);
    let (state, rest) = parse_goal_state(alloc, names, rest)?;
    Ok((RawGoalLine { name, at, state }, rest))
}

/// Reads the first line of a block, which stands on one line of the text.
fn parse_goal_line_alone<'a>(
    alloc: Global,
    names: &Names,
    words: &'a [Word],
) -> Result<(RawGoalLine, &'a [Word]), ReadFail>
    ensures reads { Reads (λ x. (x.0, x.1.now)) (on_one_line (goal_line names.now)) words.now result }
    ensures shorter { IfOk result (λ x. length x.1.now < length words.now) }
{
    let (line, later) = split_line(words);
    let (goal, rest) = match parse_goal_line(alloc, names, line) {
        Ok(read) => read,
        Err(fail) => return Err(stopped_before(later, fail)),
    };
    if !rest.is_empty() {
        return Err(stopped_before(later, stuck(rest)));
    }
    Ok((goal, later))
}

/// Reads the lines of a tree after the first line of its block; none are where the goal failed.
fn parse_lines_after<'a>(
    alloc: Global,
    goal: &RawGoalLine,
    words: &'a [Word],
) -> Result<(List<RawTreeLine>, &'a [Word]), ReadFail>
    ensures reads { Reads (λ x. (x.0, x.1.now)) (lines_after goal.now) words.now result }
    ensures few { IfOk result (λ x. length x.0 + length x.1.now ≤ length words.now) }
{
    match goal.state {
        RawState::Failed(_) => Ok((List::new(alloc), words)),
        _ => repeated::<TreeLineAlone>(alloc, words),
    }
}

/// Reads a block: its first line, and the lines of its tree.
fn parse_block<'a>(
    alloc: Global,
    names: &Names,
    words: &'a [Word],
) -> Result<(RawBlock, &'a [Word]), ReadFail>
    ensures reads { Reads (λ x. (x.0, x.1.now)) (block names.now) words.now result }
    ensures few { IfOk result (λ x. length x.0.lines + length x.1.now < length words.now) }
{
    let (goal, rest) = parse_goal_line_alone(alloc, names, words)?;
    let (lines, rest) = parse_lines_after(alloc, &goal, rest)?;
    Ok((RawBlock { goal, lines }, rest))
}

/// Reads a tree file that is all of the words.
pub(crate) fn parse_file(
    alloc: Global,
    names: &Names,
    words: &[Word],
) -> Result<List<RawBlock>, ReadFail>
    ensures reads { Reads (λ x. (x, [])) (whole (file names.now)) words.now result }
    ensures few { IfOk result (EachFew (length words.now)) }
{
    let mut blocks = List::new(alloc);
    let mut at = words;
    while !at.is_empty() {
        let (block, rest) = match parse_block(alloc, names, at) {
            Ok(read) => read,
            Err(fail) => return Err(fail),
        };
        match blocks.push(block) {
            Ok(()) => {}
            Err(_) => return Err(ReadFail::NoMemory),
        }
        at = rest;
    }
    Ok(blocks)
}
