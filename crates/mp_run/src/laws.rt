ghost use Rattle.std.specs.Prelude.{◌≡◌, ◌↔◌, ◌⊎◌, ℕ, List, Option, None};
ghost use Rattle.std.specs.Io.KnownBytes.{Appends};
ghost use Rattle.mp_ports.specs.Calls.{Read, Put, Chain};
ghost use Rattle.mp_ports.specs.Causes.{Quiet};
ghost use Rattle.mp_theory.specs.Tables.{Laws};
ghost use Rattle.mp_strategy.specs.declared.outcome.Outcome.{Outcome};
ghost use Rattle.mp_drill.specs.declared.schedule.Event.{Event};
ghost use Rattle.mp_drill.specs.declared.schedule.Reply.{Reply};
ghost use Rattle.mp_drill.specs.Trace.{IsTrace};
ghost use Rattle.mp_scripttext.specs.declared.script.Entry.{Entry as Goal};
ghost use Rattle.mp_run.specs.declared.status.Status.{Status as Ending};
ghost use Rattle.mp_run.specs.Answers.{AreTold, Answers, HasBadTree, Writes, RunCause, Keeps};
ghost use Rattle.mp_run.specs.Commands.{Command};
ghost use Rattle.mp_run.specs.Goals.{Steps, evaluate_by, goal_work};
ghost use Rattle.mp_run.specs.Loads.{Said};
ghost use Rattle.mp_run.specs.declared.piece.Piece.{Piece as Pieced};
ghost use Rattle.mp_run.specs.Sessions.{Session, CommandSession, Says, status_of};

use crate::status::Status;
use mp_drill::{
    one_schedule_text, one_trace, same_traces, some_schedule_text, some_trace, traces_evaluate,
};
use mp_ports::{Shelf, Sink};
use mp_refiner::{Refiner, step_law};
use mp_scripttext::{
    one_text as one_script_text, read_goals_are_good, some_text as some_script_text,
};
use mp_term::Sequent;
use mp_theory::theory_laws;
use mp_theorytext::{
    one_text as one_theory_text, read_theories_are_theories, some_text as some_theory_text,
};
use mp_treetext::{one_trees_text, read_trees_are_good, some_trees_text};

/// What follows of the calls of a run, whatever the shelf and the sink tell: what is written under each status; that a fault comes
/// only where its count rose, and another status, memory aside, only where none did; that what the shelf holds stays; that
/// the whole answer to the files is written where no fault is counted and memory suffices; and that words that are no command end
/// with Usage or WriteFault, and leave the shelf untouched.
pub fn runs_answer<H: Shelf, K: Sink>()
    ensures writes { (s t : H) (o p : K) (reads : List Read) (puts : List Put) (command : Option Command) (end : Ending) → Chain H.reads s t reads → Chain K.puts o p puts → Session command reads puts end
        → (text : List ℕ) × Appends (K.taken o) (K.taken p) text × Writes command reads end text }
    ensures cause { (s t : H) (o p : K) (reads : List Read) (puts : List Put) (command : Option Command) (end : Ending) → Chain H.reads s t reads → Chain K.puts o p puts → Session command reads puts end
        → RunCause end (H.faults s) (H.faults t) (K.faults o) (K.faults p) }
    ensures kept { (s t : H) (reads : List Read) → Chain H.reads s t reads → Keeps (H.bytes s) (H.bytes t) }
    ensures answer { (s t : H) (o p : K) (reads : List Read) (puts : List Put) (command : Command) (end : Ending) → Chain H.reads s t reads → Chain K.puts o p puts → CommandSession command reads puts end
        → Quiet (H.faults s) (H.faults t) → Quiet (K.faults o) (K.faults p) → (end ≡ Status.NoMemory → ⊥)
        → (text : List ℕ) × Appends (K.taken o) (K.taken p) text × Answers (H.bytes s) command end text }
    ensures usage { (s t : H) (o p : K) (reads : List Read) (puts : List Put) (end : Ending) → Chain H.reads s t reads → Chain K.puts o p puts → Session None reads puts end
        → (t ≡ s) × ((end ≡ Status.Usage) ⊎ (end ≡ Status.WriteFault)) }
{}

/// Over files whose bytes are told a command has one answer. It rests on the laws that it calls: a text says one thing, steps are
/// determined by what instances say of them, and a schedule has one trace; and a tree has one verdict.
pub fn one_answer()
    ensures { (files : List ℕ → Option (List ℕ)) (command : Command) → AreTold files command → (s t : Ending) (text bytes : List ℕ) → Answers files command s text → Answers files command t bytes
        → (s ≡ t) × (text ≡ bytes) }
{
    one_theory_text();
    one_script_text();
    one_schedule_text();
    one_trees_text();
    step_law();
    same_traces::<Sequent>();
    one_trace::<Sequent>();
    theory_laws();
    read_theories_are_theories();
    read_goals_are_good();
    read_trees_are_good();
}

/// Over files whose bytes are told each command has an answer: each text has a value or a fault, each schedule of a goal has a
/// trace, and each tree that is read has a verdict.
pub fn some_answer()
    ensures { (files : List ℕ → Option (List ℕ)) (command : Command) → AreTold files command → (s : Ending) × (text : List ℕ) × Answers files command s text }
{
    some_theory_text();
    some_script_text();
    some_schedule_text();
    some_trees_text();
    some_trace::<Refiner>();
    step_law();
    theory_laws();
    read_theories_are_theories();
    read_goals_are_good();
    read_trees_are_good();
}

/// The pieces that are put end the run with BadTree exactly where they are those of a replay, and the tree that the file has for
/// some goal doesn't prove it by steps of the theory.
pub fn bad_trees_end()
    ensures { (said : Said) (pieces : List Pieced) → Says said pieces → (status_of pieces ≡ Status.BadTree) ↔ HasBadTree said.plan said.theory said.goals }
{}

/// What the events of a drill claim, lose, reissue or report late changes nothing of the outcome: it is the one that evaluation from
/// left to right gives, since a goal is one job.
pub fn drills_evaluate()
    ensures { (theory : Laws) (steps : Steps) (goal : Goal) (events : List Event) (replies : List Reply) (outcome : Outcome Sequent) → IsTrace (evaluate_by steps theory goal) (goal_work goal) events replies outcome
        → outcome ≡ evaluate_by steps theory goal (goal_work goal) }
{
    traces_evaluate::<Sequent>();
}
