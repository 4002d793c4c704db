ghost use Rattle.std.specs.Prelude.{◌≡◌};
ghost use Rattle.std.specs.Option.{option_map};
ghost use Rattle.std.specs.Str.{is_utf8 as is_utf8_of};
ghost use Rattle.mp_run.specs.Commands.{command_of as command_of_words, task_of as task_of_words};
ghost use Rattle.mp_run.specs.Loaded.{command_seen, task_seen};

use mp_logic::Text;
use std::str;

/// What a command does with the goals of its script, with the word that names what it reads for it.
#[derive(Clone, Copy)]
pub enum Task<'a> {
    /// Each goal is evaluated.
    Seq,
    /// The events that the schedule of this name has for each goal are drilled.
    Drill(&'a Text),
    /// The tree that the file of this name has for each goal is checked.
    Replay(&'a Text),
}

/// A command, with the words that name its files.
#[derive(Clone, Copy)]
pub struct Command<'a> {
    pub theory: &'a Text,
    pub script: &'a Text,
    pub task: Task<'a>,
}

/// The command that the words give; None where they are none of the commands'.
pub fn command_of(words: &[Text]) -> Option<Command<'_>>
    ensures { option_map command_seen result ≡ command_of_words words.now }
{
    match words {
        [word, theory, script] => {
            if word.as_slice() == b"seq".as_slice() && is_utf8(theory) && is_utf8(script) {
                Some(Command {
                    theory,
                    script,
                    task: Task::Seq,
                })
            } else {
                None
            }
        }
        [word, theory, script, file] => {
            if !(is_utf8(theory) && is_utf8(script) && is_utf8(file)) {
                return None;
            }
            let task = task_of(word, file)?;
            Some(Command {
                theory,
                script,
                task,
            })
        }
        _ => None,
    }
}

/// The task that the word names, for which a third file is read; None where it names none.
fn task_of<'a>(word: &Text, file: &'a Text) -> Option<Task<'a>>
    ensures { option_map task_seen result ≡ task_of_words word.now file.now }
{
    if word.as_slice() == b"drill".as_slice() {
        Some(Task::Drill(file))
    } else if word.as_slice() == b"replay".as_slice() {
        Some(Task::Replay(file))
    } else {
        None
    }
}

/// Whether the word is UTF-8.
#[tactic(auto, using(crate::proofs::Words::passes, crate::proofs::Words::fails))]
fn is_utf8(word: &Text) -> bool
    ensures { result ≡ is_utf8_of word.now }
{
    match str::from_utf8(word.as_slice()) {
        Ok(_) => true,
        Err(_) => false,
    }
}
