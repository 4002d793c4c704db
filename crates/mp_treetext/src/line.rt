ghost use Rattle.std.specs.Prelude.{◌≡◌, ◌<◌, length, IfOk};
ghost use Rattle.mp_words.specs.Reading.{Reads};
ghost use Rattle.mp_treetext.specs.OneLine.{fail_before, front_line, on_one_line, other_lines};

use mp_words::{ReadFail, Reader, Word, stuck};
use std::alloc::Global;

/// The words on the line of the first one, and those after them.
pub(crate) fn split_line(words: &[Word]) -> (&[Word], &[Word])
    ensures front { result.0.now ≡ front_line words.now }
    ensures other { result.1.now ≡ other_lines words.now }
{
    let Some((_, more)) = words.split_first() else {
        return (words, words);
    };
    let mut count = 1usize;
    let mut rest = more;
    while let Some((word, next)) = rest.split_first() {
        if word.opens_line {
            break;
        }
        count += 1;
        rest = next;
    }
    words.split_at(count)
}

/// Why a reader stopped, where these words follow those that were given to it.
pub(crate) fn stopped_before(later: &[Word], fail: ReadFail) -> ReadFail
    ensures { result ≡ fail_before later.now fail }
{
    match fail {
        ReadFail::Stuck(None) => stuck(later),
        other => other,
    }
}

/// Reads the part on the line of the first word, where nothing else may stand.
pub(crate) fn parse_on_line<R: Reader>(
    alloc: Global,
    words: &[Word],
) -> Result<(R::Raw, &[Word]), ReadFail>
    ensures reads { Reads (λ x. (x.0, x.1.now)) (on_one_line R.grammar) words.now result }
    ensures shorter { IfOk result (λ x. length x.1.now < length words.now) }
{
    let (line, later) = split_line(words);
    let (raw, rest) = match R::read(alloc, line) {
        Ok(read) => read,
        Err(fail) => return Err(stopped_before(later, fail)),
    };
    if !rest.is_empty() {
        return Err(stopped_before(later, stuck(rest)));
    }
    Ok((raw, later))
}
