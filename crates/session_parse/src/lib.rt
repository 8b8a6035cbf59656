// Reading the lines of a session, an event's and a header's: each function gives what the definition of that part of the grammar
// gives (session/specs/Grammar, Header). `session_keys` has the keys and the calls, `session_header_numbers` a header line's number.
#![tactic(auto)]

ghost use Rattle.std.specs.Prelude.{◌≡◌, ◌≤◌, length};
ghost use Rattle.session.specs.Grammar.{comma_position, parse_start, step_event, parse_event, closed_line, parse_event_line};
ghost use Rattle.session.specs.Header.{line_number, with_number, optional, number_step, other_step, header_step};

use session::{EventLine, Header, HeaderLine, HeaderStep};

// How many bytes stand before the first comma; all of them if there is none.
#[tactic(auto, using(crate::proofs::Laws::comma_library))]
pub fn comma_position(s: &[u8]) -> usize
    ensures { (result ≡ comma_position s.now) × (result ≤ length s.now) }
{
    s.iter().position(|x| *x == b',').unwrap_or(s.len())
}

// What stands after `start=`.
#[tactic(auto, unfolding(session::specs::Grammar::parse_start, session::specs::Grammar::call_of_task))]
pub fn start(s: &[u8]) -> Option<EventLine>
    ensures { result ≡ parse_start s.now }
{
    let c = comma_position(s);
    match session_numbers::number(&s[..c]) {
        Some(k) if c < s.len() => session_keys::call(k, &s[c + 1..]),
        _ => None,
    }
}

// What stands after `step=`, parsed as a number.
#[tactic(auto, unfolding(session::specs::Grammar::step_event))]
pub fn step(task: Option<u32>) -> Option<EventLine>
    ensures { result ≡ step_event task }
{
    Some(EventLine::Step(task?))
}

// The bytes of an event's line.
#[tactic(auto, using(crate::proofs::Laws::event_keys), unfolding(session::specs::Grammar::parse_event))]
pub fn event(s: &[u8]) -> Option<EventLine>
    ensures { result ≡ parse_event s.now }
{
    if let Some(task) = s.strip_prefix(b"step=") {
        step(session_numbers::number(task))
    } else if let Some(call) = s.strip_prefix(b"start=") {
        start(call)
    } else {
        None
    }
}

// What a closed event line asks for, given without the closing byte.
#[tactic(auto, unfolding(session::specs::Grammar::parse_event_line, session::specs::Grammar::admissible))]
pub fn event_line(s: &[u8]) -> Option<EventLine>
    ensures { result ≡ parse_event_line (closed_line s.now) }
{
    if s.len() <= 40 { event(s) } else { None }
}

// The header with the number of the line that was due.
#[tactic(auto, unfolding(session::specs::Header::with_number))]
pub fn with_number(due: HeaderLine, h: Header, n: u32) -> HeaderStep
    ensures { result ≡ with_number due h n }
{
    match due {
        HeaderLine::Tasks => {
            let config = state::config(n);
            HeaderStep::Next(HeaderLine::Nodes, Header { config, ..h })
        }
        HeaderLine::Nodes => HeaderStep::Next(HeaderLine::Buckets, Header { nodes: n, ..h }),
        HeaderLine::Buckets => HeaderStep::Next(HeaderLine::Version, Header { buckets: n, ..h }),
        HeaderLine::Version => {
            let config = state::with_version(h.config, n);
            HeaderStep::Next(HeaderLine::Blank, Header { config, ..h })
        }
        HeaderLine::Blank => {
            let config = state::with_zero_withdrawn(h.config, true);
            HeaderStep::Complete(Header { config, ..h })
        }
    }
}

// Whether a header is complete without this line.
#[tactic(auto, unfolding(session::specs::Header::optional))]
pub fn optional(due: HeaderLine) -> bool
    ensures { result ≡ optional due }
{
    matches!(due, HeaderLine::Version | HeaderLine::Blank)
}

// What a closed line says if it is of the form of this header line, and if it is not.
#[tactic(auto, unfolding(session::specs::Header::number_step))]
fn number_line(due: HeaderLine, h: Header, s: &[u8], otherwise: HeaderStep) -> HeaderStep
    ensures { result ≡ number_step due h (line_number due (closed_line s.now)) otherwise }
{
    match session_header_numbers::line_number(due, s) {
        Some(n) => with_number(due, h, n),
        None => otherwise,
    }
}

// What a closed line says that is not of the form of the header line due.
#[tactic(auto, unfolding(session::specs::Header::other_step))]
fn other_line(due: HeaderLine, h: Header, s: &[u8]) -> HeaderStep
    ensures { result ≡ other_step due h (closed_line s.now) }
{
    match due {
        HeaderLine::Tasks | HeaderLine::Nodes | HeaderLine::Buckets => HeaderStep::Missing,
        HeaderLine::Version => number_line(HeaderLine::Blank, h, s, HeaderStep::Absent(h)),
        HeaderLine::Blank => HeaderStep::Absent(h),
    }
}

// What a closed line says where a header line is due.
#[tactic(auto, unfolding(session::specs::Header::header_step))]
pub fn header_line(due: HeaderLine, h: Header, s: &[u8]) -> HeaderStep
    ensures { result ≡ header_step due h (closed_line s.now) }
{
    let other = other_line(due, h, s);
    number_line(due, h, s, other)
}
