// Where the reading of a session stands between two lines: which line is due, the header as far as it is read, and how many events there were; and
// where it stands after one line more. The words of the events are kept in mattered_text.
#![tactic(auto)]

ghost use Rattle.std.specs.Prelude.{◌≡◌, ◌+◌, min, ltb, false};
ghost use Rattle.mattered_standing.specs.Standings.{standing, new_standing, after_event, after_header};

use session::{Header, HeaderLine, HeaderStep};
use session_state::Phase;

// An input between two lines: which line is due, the header as far as it is read, whether a line after it was outside the grammar, and how
// many events there were, at most 257.
#[derive(Clone, Copy)]
pub struct Standing {
    pub phase: Phase,
    pub header: Header,
    pub outside: bool,
    pub count: usize,
}

// No event is read yet.
fn begun(phase: Phase, header: Header) -> Standing
    ensures { result ≡ standing phase header false 0 }
{
    Standing {
        phase,
        header,
        outside: false,
        count: 0,
    }
}

// No line is read yet.
#[tactic(auto, unfolding(crate::specs::Standings::new_standing, session::specs::Header::empty_header))]
pub fn new_standing() -> Standing
    ensures { result ≡ new_standing }
{
    let header = Header {
        config: state::zero_config(),
        nodes: 0,
        buckets: 0,
    };
    begun(Phase::Due(HeaderLine::Tasks), header)
}

// One event more. Past 256 their number stays at 257.
fn counted(n: usize) -> usize
    ensures { result ≡ min 257 (n + 1) }
{
    n.min(256) + 1
}

// Of so many events no step is sought.
pub fn too_many(n: usize) -> bool
    ensures { result ≡ ltb 256 n }
{
    256 < n
}

// After a line that is no header line: it is an event's, or outside the grammar.
#[tactic(auto, unfolding(crate::specs::Standings::after_event))]
pub fn after_event(t: Standing, event: bool) -> Standing
    ensures { result ≡ after_event event t.header t.outside t.count }
{
    let phase = Phase::Events;
    if event {
        Standing {
            phase,
            count: counted(t.count),
            ..t
        }
    } else {
        Standing {
            phase,
            outside: true,
            ..t
        }
    }
}

// After a line where a header line is due, by what it says. One that stands in the place of a header line that may be left out is an event's.
#[tactic(auto, unfolding(crate::specs::Standings::after_header))]
pub fn after_header(step: HeaderStep, header: Header, event: bool) -> Standing
    ensures { result ≡ after_header step header event }
{
    match step {
        HeaderStep::Next(due, h) => begun(Phase::Due(due), h),
        HeaderStep::Complete(h) => begun(Phase::Events, h),
        HeaderStep::Absent(h) => after_event(begun(Phase::Events, h), event),
        HeaderStep::Missing => begun(Phase::Stopped, header),
    }
}
