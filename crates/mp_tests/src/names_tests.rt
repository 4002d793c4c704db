//! Tables of names, words and what is read of them alone.

use crate::table::check;
use mp_logic::{List, Sym};
use mp_names::{NameSet, Names};
use mp_report::{FileKind, refusal_text};
use mp_term::Term;
use mp_termtext::{print_term, read_term};
use mp_words::{
    Keyword, Mark, RawName, ReadFail, TextErr, TextFail, TextWhy, What, Word, lex_text, whole,
};
use std::alloc::Global;
use std::test::Fail;

// ## Names

/// The number of the name, which is entered if it has none.
fn number(alloc: Global, names: &mut Names, name: &str) -> Option<Sym> {
    if names.len() > 100 {
        return None;
    }
    names.number(alloc, name.as_bytes()).ok()
}

/// A name that is entered, and its number.
static ENTERED: [(&str, u32); 5] = [("nat", 0), ("all", 1), ("nat", 0), ("x1", 2), ("all", 1)];

/// Whether the table has the three names, each with its number, and no other.
fn are_known(names: &Names) -> bool {
    let is_found = names.find(b"x1") == Some(Sym(2)) && names.find(b"x").is_none();
    let is_told = names.text(Sym(1)) == b"all".as_slice() && names.text(Sym(3)).is_empty();
    names.len() == 3 && is_found && is_told
}

fn enter_all(alloc: Global, names: &mut Names) -> Result<(), Fail> {
    for (place, (name, sym)) in ENTERED.iter().enumerate() {
        check(place, Some(number(alloc, names, *name) == Some(Sym(*sym))))?;
    }
    Ok(())
}

#[test]
fn names_keep_their_numbers(rt: HostRuntime) -> Result<(), Fail> {
    let mut names = Names::new(rt.alloc());
    enter_all(rt.alloc(), &mut names)?;
    check(5, Some(are_known(&names)))
}

/// Whether the name was met before.
fn was_met(met: &mut NameSet, name: u32) -> Option<bool> {
    met.meet(Sym(name)).ok()
}

/// A name that is met, and whether it was met before.
static MET: [(u32, bool); 5] = [(3, false), (0, false), (3, true), (1, false), (0, true)];

/// Whether each name has the place at which it was met.
fn have_places(met: &NameSet) -> bool {
    met.place(Sym(0)) == Some(1) && met.place(Sym(1)) == Some(2) && met.place(Sym(2)).is_none()
}

fn meet_all(met: &mut NameSet) -> Result<(), Fail> {
    for (place, (name, before)) in MET.iter().enumerate() {
        check(place, Some(was_met(met, *name) == Some(*before)))?;
    }
    Ok(())
}

#[test]
fn a_name_is_met_once(rt: HostRuntime) -> Result<(), Fail> {
    let mut met = NameSet::new(rt.alloc());
    meet_all(&mut met)?;
    check(5, Some(have_places(&met)))
}

// ## Words

/// The words of a short source, in a table that goes on from what it has.
fn words(alloc: Global, names: &mut Names, source: &str) -> Option<List<Word>> {
    if names.len() > 1000 || source.len() > 1000 {
        return None;
    }
    lex_text(alloc, names, source.as_bytes()).ok()
}

/// The first byte of a word, and what it is.
type Said = (u32, What);

fn are_words(words: &[Word], due: &[Said]) -> bool {
    if words.len() != due.len() {
        return false;
    }
    for (word, (at, what)) in words.iter().zip(due) {
        if word.at != *at || word.what != *what {
            return false;
        }
    }
    true
}

/// Whether the source has these words.
fn has_words(alloc: Global, names: &mut Names, source: &str, due: &[Said]) -> Option<bool> {
    let words = words(alloc, names, source)?;
    Some(are_words(words.as_slice(), due))
}

/// How many words the source has, and how many names.
fn counts(alloc: Global, source: &str) -> Option<(u64, u64)> {
    let mut names = Names::new(alloc);
    let count = words(alloc, &mut names, source)?.len();
    Some((count, names.len()))
}

/// The name that is all of the source, or where its reader is stuck.
fn whole_name(alloc: Global, source: &str) -> Option<Result<RawName, ReadFail>> {
    let mut names = Names::new(alloc);
    let words = words(alloc, &mut names, source)?;
    Some(whole::<RawName>(alloc, words.as_slice()))
}

/// A source, and its words, in one table of names for all sources.
static WORDS: [(&str, &[Said]); 4] = [
    (
        "rule Rule 'x3 'A -42 \"a\\\"b\\\\\" >- x3 # rule\n'y3",
        &[
            (
                0,
                What::Small {
                    name: Sym(0),
                    keyword: Some(Keyword::Rule),
                },
            ),
            (5, What::Cap(Sym(1))),
            (
                10,
                What::SmallVar {
                    name: Sym(2),
                    numbered: Some(3),
                },
            ),
            (14, What::CapVar(Sym(3))),
            (17, What::Num(-42)),
            (21, What::Str(Sym(4))),
            (30, What::Mark(Mark::Turnstile)),
            (
                33,
                What::Small {
                    name: Sym(2),
                    keyword: None,
                },
            ),
            (
                43,
                What::SmallVar {
                    name: Sym(5),
                    numbered: None,
                },
            ),
        ],
    ),
    (
        "x3 new",
        &[
            (
                0,
                What::Small {
                    name: Sym(2),
                    keyword: None,
                },
            ),
            (
                3,
                What::Small {
                    name: Sym(6),
                    keyword: None,
                },
            ),
        ],
    ),
    (
        "'x4294967295 'x4294967296",
        &[
            (
                0,
                What::SmallVar {
                    name: Sym(7),
                    numbered: Some(4294967295),
                },
            ),
            (
                13,
                What::SmallVar {
                    name: Sym(8),
                    numbered: None,
                },
            ),
        ],
    ),
    (
        "--> <-> & |",
        &[
            (0, What::Mark(Mark::Provided)),
            (4, What::Mark(Mark::Rewrites)),
            (8, What::Mark(Mark::And)),
            (10, What::Mark(Mark::Bar)),
        ],
    ),
];

/// Whether the names have their texts, without quotes and escapes.
fn have_texts(names: &Names) -> bool {
    names.text(Sym(2)) == b"x3".as_slice()
        && names.text(Sym(3)) == b"A".as_slice()
        && names.text(Sym(4)) == b"a\"b\\".as_slice()
}

fn have_words(alloc: Global, names: &mut Names) -> Result<(), Fail> {
    for (place, (source, due)) in WORDS.iter().enumerate() {
        check(place, has_words(alloc, names, *source, *due))?;
    }
    Ok(())
}

#[test]
fn each_token_has_its_word(rt: HostRuntime) -> Result<(), Fail> {
    let mut names = Names::new(rt.alloc());
    have_words(rt.alloc(), &mut names)?;
    check(4, Some(have_texts(&names)))
}

/// A source, and how many words and how many names it has.
static COUNTS: [(&str, u64, u64); 2] = [
    ("{ } [ ] ( ) < > >- ==> --> <-> & , ; : := . @ |", 20, 0),
    (
        "rule goal fuel by then at with id claim send again die lose reissue",
        14,
        14,
    ),
];

#[test]
fn each_mark_and_each_keyword_is_a_word(rt: HostRuntime) -> Result<(), Fail> {
    for (place, (source, count, entered)) in COUNTS.iter().enumerate() {
        let due = Some((*count, *entered));
        check(place, Some(counts(rt.alloc(), *source) == due))?;
    }
    Ok(())
}

/// A source, and the name that is all of it, or where its reader is stuck.
static WHOLE: [(&str, Result<RawName, ReadFail>); 4] = [
    (
        "a",
        Ok(RawName {
            name: Sym(0),
            at: 0,
        }),
    ),
    ("", Err(ReadFail::Stuck(None))),
    ("A", Err(ReadFail::Stuck(Some(0)))),
    ("a b c", Err(ReadFail::Stuck(Some(2)))),
];

/// A source, and for each of its words whether no other one stands before it on its line.
static LINES: [(&str, &[bool]); 3] = [
    ("a b", &[true, false]),
    ("\n  a\n b c # d\n\te", &[true, true, false, true]),
    ("# a\n b", &[true]),
];

fn open_lines(words: &[Word], due: &[bool]) -> bool {
    if words.len() != due.len() {
        return false;
    }
    for (word, opens) in words.iter().zip(due) {
        if word.opens_line != *opens {
            return false;
        }
    }
    true
}

fn has_lines(alloc: Global, row: &(&'static str, &'static [bool])) -> Option<bool> {
    let mut names = Names::new(alloc);
    let words = words(alloc, &mut names, row.0)?;
    Some(open_lines(words.as_slice(), row.1))
}

#[test]
fn a_word_may_open_its_line(rt: HostRuntime) -> Result<(), Fail> {
    for (place, row) in LINES.iter().enumerate() {
        check(place, has_lines(rt.alloc(), row))?;
    }
    Ok(())
}

#[test]
fn a_part_is_all_of_the_words(rt: HostRuntime) -> Result<(), Fail> {
    for (place, (source, due)) in WHOLE.iter().enumerate() {
        check(place, Some(whole_name(rt.alloc(), *source) == Some(*due)))?;
    }
    Ok(())
}

// ## Texts

/// A term as it is written in a scope, and as it is printed, or the byte and the name of its fault.
type Again = (&'static str, u32, Result<&'static str, (u64, TextWhy)>);

static AGAIN: [Again; 10] = [
    ("p{'x1; 'x2}", 2, Ok("p{'x1; 'x2}")),
    ("lam{x1. 'x1}", 1, Ok("lam{x2. 'x2}")),
    ("lam{y. 'x1}", 1, Ok("lam{x2. 'x1}")),
    ("c", 0, Ok("c")),
    ("'x1", 0, Err((0, TextWhy::UnboundVar))),
    ("p{'x1; 'x3}", 2, Err((7, TextWhy::UnboundVar))),
    ("'x0", 2, Err((0, TextWhy::UnboundVar))),
    ("'x01", 2, Err((0, TextWhy::UnboundVar))),
    (">- c", 0, Err((0, TextWhy::Syntax))),
    ("x. c", 0, Err((1, TextWhy::Syntax))),
];

/// Whether the term's text is this one.
fn is_printed(alloc: Global, names: &Names, term: &Term, scope: u32, text: &[u8]) -> bool {
    match print_term(alloc, names, term, scope) {
        Ok(printed) => printed.as_slice() == text,
        Err(_) => false,
    }
}

/// Whether the term is read and printed so, or refused so.
fn is_again(alloc: Global, row: &Again) -> Option<bool> {
    let (source, scope, want) = row;
    if source.len() > 1000 || *scope > 1000 {
        return None;
    }
    let mut names = Names::new(alloc);
    let read = read_term(alloc, &mut names, source.as_bytes(), *scope);
    Some(match (read, want) {
        (Ok(term), Ok(text)) => is_printed(alloc, &names, &term, *scope, text.as_bytes()),
        (Err(TextFail::Bad(err)), Err((at, why))) => err.at == *at && err.why == *why,
        _ => false,
    })
}

#[test]
fn terms_are_read_and_printed_with_free_names(rt: HostRuntime) -> Result<(), Fail> {
    for (place, row) in AGAIN.iter().enumerate() {
        check(place, is_again(rt.alloc(), row))?;
    }
    Ok(())
}

/// What a file that no command reads yet is read as, the byte and the name of its fault, and the line of the refusal.
type Refusal = (FileKind, u64, TextWhy, &'static str);

static REFUSALS: [Refusal; 3] = [
    (
        FileKind::Trees,
        7,
        TextWhy::NotCanonical,
        "refused: trees byte 7: NotCanonical\n",
    ),
    (
        FileKind::Jobs,
        0,
        TextWhy::UnknownName,
        "refused: jobs byte 0: UnknownName\n",
    ),
    (
        FileKind::Checkpoint,
        20,
        TextWhy::BadCheckpoint,
        "refused: checkpoint byte 20: BadCheckpoint\n",
    ),
];

/// Whether the refusal is this line.
fn is_refused(alloc: Global, row: &Refusal) -> bool {
    let (file, at, why, line) = row;
    let error = TextErr { at: *at, why: *why };
    match refusal_text(alloc, *file, &error) {
        Ok(text) => text.as_slice() == line.as_bytes(),
        Err(_) => false,
    }
}

#[test]
fn a_refusal_is_a_line(rt: HostRuntime) -> Result<(), Fail> {
    for (place, row) in REFUSALS.iter().enumerate() {
        check(place, Some(is_refused(rt.alloc(), row)))?;
    }
    Ok(())
}
