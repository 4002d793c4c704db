ghost use Rattle.std.specs.Prelude.{◌≡◌, ◌<◌, ◌≤◌, [], length, IfOk};
ghost use Rattle.mp_words.specs.Grammars.{if_there, read, whole};
ghost use Rattle.mp_words.specs.Fronts.{a_number, number_at};
ghost use Rattle.mp_words.specs.Reading.{Reads};
ghost use Rattle.mp_drill.specs.ScheduleGrammar.{begins_event, event, schedule, section};

use crate::raw::{RawEvent, RawSection};
use mp_logic::List;
use mp_words::{
    Beginning, Keyword, RawNumber, ReadFail, Reader, What, Word, many, name_behind, number_at,
    repeated, stuck,
};
use std::alloc::Global;

/// Reads the number of a worker.
fn parse_worker(words: &[Word]) -> Result<(RawNumber, &[Word]), ReadFail>
    ensures reads { Reads (λ x. (x.0, x.1.now)) a_number words.now result }
    ensures shorter { IfOk result (λ x. length x.1.now < length words.now) }
{
    match number_at(words) {
        Some(read) => Ok(read),
        None => Err(stuck(words)),
    }
}

/// Reads the number of units, where one stands.
fn parse_units(words: &[Word]) -> (Option<RawNumber>, &[Word])
    ensures reads { if_there number_at words.now ≡ read result.0 result.1.now }
    ensures within { length result.1.now ≤ length words.now }
{
    match number_at(words) {
        Some((units, rest)) => (Some(units), rest),
        None => (None, words),
    }
}

impl Reader for RawEvent {
    type Raw = RawEvent;

    ghost grammar = { event };

    /// Reads the word of an event, its worker and its units.
    fn read(_alloc: Global, words: &[Word]) -> Result<(RawEvent, &[Word]), ReadFail> {
        let Some((word, at)) = words.split_first() else {
            return Err(stuck(words));
        };
        let What::Small {
            keyword: Some(found),
            ..
        } = word.what
        else {
            return Err(stuck(words));
        };
        match found {
            Keyword::Claim => {
                let (who, rest) = parse_worker(at)?;
                Ok((RawEvent::Claim(who), rest))
            }
            Keyword::Send => {
                let (who, at) = parse_worker(at)?;
                let (units, rest) = parse_units(at);
                Ok((RawEvent::Send { who, units }, rest))
            }
            Keyword::Again => {
                let (who, rest) = parse_worker(at)?;
                Ok((RawEvent::Again(who), rest))
            }
            Keyword::Die => {
                let (who, rest) = parse_worker(at)?;
                Ok((RawEvent::Die(who), rest))
            }
            Keyword::Lose => {
                let (who, rest) = parse_worker(at)?;
                Ok((RawEvent::Lose(who), rest))
            }
            Keyword::Reissue => Ok((RawEvent::Reissue, at)),
            _ => Err(stuck(words)),
        }
    }
}

impl Beginning for RawEvent {
    ghost begun = { begins_event };

    fn begins(words: &[Word]) -> bool {
        let Some(word) = words.first() else {
            return false;
        };
        match word.what {
            What::Small {
                keyword: Some(found),
                ..
            } => matches!(
                found,
                Keyword::Claim
                    | Keyword::Send
                    | Keyword::Again
                    | Keyword::Die
                    | Keyword::Lose
                    | Keyword::Reissue
            ),
            _ => false,
        }
    }
}

impl Reader for RawSection {
    type Raw = RawSection;

    ghost grammar = { section };

    /// Reads `goal`, a name and events, as long as the next word begins one.
    fn read(alloc: Global, words: &[Word]) -> Result<(RawSection, &[Word]), ReadFail> {
        let (goal, at) = name_behind(words, Keyword::Goal)?;
        let (events, rest) = repeated::<RawEvent>(alloc, at)?;
        Ok((RawSection { goal, events }, rest))
    }
}

/// Reads a schedule that is all of the words.
pub(crate) fn parse_schedule(alloc: Global, words: &[Word]) -> Result<List<RawSection>, ReadFail>
    ensures { Reads (λ x. (x, [])) (whole schedule) words.now result }
{
    many::<RawSection>(alloc, words)
}
