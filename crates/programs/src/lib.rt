// The programs as functions, each with its exit status: the program `yard` calls them, and so do the functions for C (programs_c); the crates yardrun to
// yardtimeline call the same functions of the crates below. Each contract has the papers' definition of what an input prints.
#![tactic(auto)]

ghost use Rattle.stdio.specs.Runs.{Ran};
ghost use Rattle.stdio.specs.Outcomes.{IsStatus};
ghost use Rattle.session.specs.Transcript.{transcript};
ghost use Rattle.timeline_program.specs.Running.{timeline_transcript};
ghost use Rattle.recorder.specs.Runs.{RanRecorder};
ghost use Rattle.reader.specs.Verifies.{verify_output};
ghost use Rattle.notes.specs.Text.{notes_transcript};
ghost use Rattle.plan_text.specs.Text.{plan_transcript};
ghost use Rattle.game.specs.Text.{game_answer};
ghost use Rattle.mattered.specs.Text.{mattered_answer};

use stdio::source::Source;

// A session: what the set answers.
pub fn yardrun<S: Source>(from: &mut S) -> i32
    ensures { Ran transcript result }
{
    session_run::yardrun(from)
}

// The memory that a session leaves.
pub fn yarddump<S: Source>(from: &mut S) -> i32
    ensures { IsStatus result }
{
    session_dump::yarddump(from)
}

// A session as rows.
pub fn yardtimeline<S: Source>(from: &mut S) -> i32
    ensures { Ran timeline_transcript result }
{
    timeline_program::yardtimeline(from)
}

// A session's recording.
pub fn yardrecord<S: Source>(from: &mut S) -> i32
    ensures { RanRecorder result }
{
    recorder::program::yardrecord(from)
}

// Whether a recording is what the set prints.
pub fn yardverify<S: Source>(from: &mut S) -> i32
    ensures { Ran verify_output result }
{
    reader::program::yardverify(from)
}

// Two lanes' notes in one order.
pub fn yardnotes<S: Source>(from: &mut S) -> i32
    ensures { Ran notes_transcript result }
{
    notes_text::program::yardnotes(from)
}

// What a list of calls comes to.
pub fn yardplan<S: Source>(from: &mut S) -> i32
    ensures { Ran plan_transcript result }
{
    plan_text::program::yardplan(from)
}

// Lane against office.
pub fn yardgame<S: Source>(from: &mut S) -> i32
    ensures { Ran game_answer result }
{
    game_text::program::yardgame(from)
}

// The step that mattered.
pub fn yardmattered<S: Source>(from: &mut S) -> i32
    ensures { Ran mattered_answer result }
{
    mattered_text::program::yardmattered(from)
}
