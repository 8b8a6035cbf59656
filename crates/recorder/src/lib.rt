// A recorder: what it reads is a session's input, what it writes is the session's recording, and where there is none the session's refusal.
// `record_line` takes one closed line; `program` is yardrecord. The machine is that of session_lines, and so are the reading and printing of lines.
#![tactic(auto)]

pub mod program;
mod writing;

ghost use Rattle.std.specs.Prelude.{◌≡◌};
ghost use Rattle.session.specs.Grammar.{closed_line};
ghost use Rattle.session_state.specs.Handling.{LineHandled};
ghost use Rattle.session_lines.specs.KnownMemory.{KnownIn};
ghost use Rattle.recorder.specs.LentRecorder.{recorded_line, new_recorder};

use recorder_lines::KeptLines;
use session_state::{Handled, Phase, Session};

// A recorder between two lines: its session, and the header's lines kept for the opening.
#[derive(Clone, Copy)]
pub struct Recorder {
    pub session: Session,
    pub kept: KeptLines,
}

// A recorder of which no line is read yet.
#[tactic(auto, unfolding(crate::specs::LentRecorder::new_recorder))]
pub fn new_recorder() -> Recorder
    ensures { result ≡ new_recorder }
{
    Recorder {
        session: session_state::new_session(),
        kept: recorder_lines::no_lines(),
    }
}

// One closed line, without its closing byte 10: the session after it, and how many bytes are written for it, from the buffer's first byte on.
// `k` are the header's lines so far; `recorder_lines::kept_after` gives those after the line. `ok` is what `session_lines::sound_memory` gives
// before the line, and it gives the same after it (`recorded_known`).
pub fn record_line(
    ok: bool,
    s: Session,
    k: KeptLines,
    ns: &mut [u32],
    bs: &mut [u32],
    line: &[u8],
    out: &mut [u8],
) -> Handled
    requires { KnownIn ok s ns.old bs.old }
    ensures { LineHandled (recorded_line (closed_line line.now) k s ns.old bs.old) result ns.new
        bs.new out.old out.new }
{
    match s.phase {
        Phase::Due(due) => writing::header_line(s, k, due, ns, bs, line, out),
        Phase::Events => writing::event_line(ok, s, ns, bs, line, out),
        Phase::Stopped => Handled {
            session: s,
            printed: 0,
        },
    }
}
