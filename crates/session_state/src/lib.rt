// A session between two lines, and the refusal that stops it.
#![tactic(auto)]

ghost use Rattle.std.specs.Prelude.{◌≡◌};
ghost use Rattle.session_state.specs.Handling.{session, new_session, handled, stopped, reads_events, has_stopped, SessionHandled};

use session::{Header, HeaderLine};
use session_bytes::Page;
use spec::State;

// Where a session stands between two lines: a header line is due, events are read, or nothing more is printed.
#[derive(Clone, Copy)]
pub enum Phase {
    Due(HeaderLine),
    Events,
    Stopped,
}

// A session between two lines: the header as far as it is read, and the machine's state, all zeros before the opening.
#[derive(Clone, Copy)]
pub struct Session {
    pub phase: Phase,
    pub header: Header,
    pub state: State,
}

// The session after a line, and how many bytes the line printed.
#[derive(Clone, Copy)]
pub struct Handled {
    pub session: Session,
    pub printed: usize,
}

// A session of which no line is read yet.
#[tactic(auto, unfolding(crate::specs::Handling::new_session, session::specs::Header::empty_header))]
pub fn new_session() -> Session
    ensures { result ≡ new_session }
{
    Session {
        phase: Phase::Due(HeaderLine::Tasks),
        header: Header {
            config: state::zero_config(),
            nodes: 0,
            buckets: 0,
        },
        state: state::zero_state(),
    }
}

// Whether events are read.
#[tactic(auto, unfolding(crate::specs::Handling::reads_events))]
pub fn reads_events(phase: Phase) -> bool
    ensures { result ≡ reads_events phase }
{
    matches!(phase, Phase::Events)
}

// Whether the session has stopped: then whatever follows prints nothing more.
#[tactic(auto, unfolding(crate::specs::Handling::has_stopped))]
pub fn has_stopped(phase: Phase) -> bool
    ensures { result ≡ has_stopped phase }
{
    matches!(phase, Phase::Stopped)
}

// A line is handled: where the session stands then, and how many bytes were printed.
pub fn after_line(phase: Phase, header: Header, m: State, printed: usize) -> Handled
    ensures { result ≡ handled (session phase header m) printed }
{
    Handled {
        session: Session {
            phase,
            header,
            state: m,
        },
        printed,
    }
}

// A refusal, after which nothing more is printed. It is a number, and no enum: what is printed is the paper's number, and the definitions say numbers.
pub fn stop(s: Session, refusal: u32, out: &mut [u8]) -> Handled
    ensures { SessionHandled (stopped s refusal) result out.old out.new }
{
    let mut page = Page::new(out);
    page.refusal(refusal);
    Handled {
        session: Session {
            phase: Phase::Stopped,
            ..s
        },
        printed: page.printed(),
    }
}
