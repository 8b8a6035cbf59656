// The programs as functions for C, each with its exit status, with the contracts of `programs`. A function that C calls can have no runtime: these read
// standard input a byte at a time, and a read that fails is to them the end of the input.
#![tactic(auto)]

ghost use Rattle.stdio.specs.Runs.{Ran};
ghost use Rattle.stdio.specs.Outcomes.{IsStatus};
ghost use Rattle.session.specs.Transcript.{transcript};
ghost use Rattle.timeline_program.specs.Running.{timeline_transcript};
ghost use Rattle.recorder.specs.Runs.{RanRecorder};
ghost use Rattle.reader.specs.Verifies.{verify_output};
ghost use Rattle.notes.specs.Text.{notes_transcript};
ghost use Rattle.plan_text.specs.Text.{plan_transcript};
ghost use Rattle.game.specs.Text.{game_answer};
ghost use Rattle.mattered.specs.Text.{mattered_answer};

use stdio::source::Bytewise;

// A session: what the set answers.
#[unsafe(no_mangle)]
pub extern "C" fn yardrun() -> i32
    ensures { Ran transcript result }
{
    let mut from = Bytewise { fd: 0 };
    programs::yardrun(&mut from)
}

// The memory that a session leaves.
#[unsafe(no_mangle)]
pub extern "C" fn yarddump() -> i32
    ensures { IsStatus result }
{
    let mut from = Bytewise { fd: 0 };
    programs::yarddump(&mut from)
}

// A session as rows.
#[unsafe(no_mangle)]
pub extern "C" fn yardtimeline() -> i32
    ensures { Ran timeline_transcript result }
{
    let mut from = Bytewise { fd: 0 };
    programs::yardtimeline(&mut from)
}

// A session's recording.
#[unsafe(no_mangle)]
pub extern "C" fn yardrecord() -> i32
    ensures { RanRecorder result }
{
    let mut from = Bytewise { fd: 0 };
    programs::yardrecord(&mut from)
}

// Whether a recording is what the set prints.
#[unsafe(no_mangle)]
pub extern "C" fn yardverify() -> i32
    ensures { Ran verify_output result }
{
    let mut from = Bytewise { fd: 0 };
    programs::yardverify(&mut from)
}

// Two lanes' notes in one order.
#[unsafe(no_mangle)]
pub extern "C" fn yardnotes() -> i32
    ensures { Ran notes_transcript result }
{
    let mut from = Bytewise { fd: 0 };
    programs::yardnotes(&mut from)
}

// What a list of calls comes to.
#[unsafe(no_mangle)]
pub extern "C" fn yardplan() -> i32
    ensures { Ran plan_transcript result }
{
    let mut from = Bytewise { fd: 0 };
    programs::yardplan(&mut from)
}

// Lane against office.
#[unsafe(no_mangle)]
pub extern "C" fn yardgame() -> i32
    ensures { Ran game_answer result }
{
    let mut from = Bytewise { fd: 0 };
    programs::yardgame(&mut from)
}

// The step that mattered.
#[unsafe(no_mangle)]
pub extern "C" fn yardmattered() -> i32
    ensures { Ran mattered_answer result }
{
    let mut from = Bytewise { fd: 0 };
    programs::yardmattered(&mut from)
}
