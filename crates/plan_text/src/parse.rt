// Reading a line of a list of calls, over the reader of a session's lines.
ghost use Rattle.std.specs.Prelude.{◌≡◌};
ghost use Rattle.session.specs.Grammar.{closed_line};
ghost use Rattle.plan_text.specs.Text.{tasks_said, version_said, call_said, parse_call_line, line_says};

use crate::{Due, PlanLine};
use plans::Planned;
use session::EventLine;

#[tactic(auto, unfolding(crate::specs::Text::tasks_said))]
fn tasks_said(d: Option<u32>) -> Option<PlanLine>
    ensures { result ≡ tasks_said d }
{
    Some(PlanLine::Tasks(d?))
}

#[tactic(auto, unfolding(crate::specs::Text::version_said))]
fn version_said(d: Option<u32>, otherwise: Option<PlanLine>) -> Option<PlanLine>
    ensures { result ≡ version_said d otherwise }
{
    match d {
        Some(n) => Some(PlanLine::Version(n)),
        None => otherwise,
    }
}

// The call of a session's start.
#[tactic(auto, unfolding(crate::specs::Text::call_said))]
fn call_said(e: Option<EventLine>) -> Option<PlanLine>
    ensures { result ≡ call_said e }
{
    match e? {
        EventLine::Start(_, call, tag) => Some(PlanLine::Call(Planned { call, tag })),
        EventLine::Step(_) => None,
    }
}

// A closed line where a call is due, given without the closing byte.
fn call_line(s: &[u8]) -> Option<PlanLine>
    ensures { result ≡ parse_call_line (closed_line s.now) }
{
    if s.len() <= 40 && session_keys::starts_with(s, b"call=") {
        call_said(session_keys::call(0, &s[5..]))
    } else {
        None
    }
}

// A closed line where this line is due, given without the closing byte.
#[tactic(auto, unfolding(crate::specs::Text::line_says))]
pub fn line(due: Option<Due>, s: &[u8]) -> Option<PlanLine>
    ensures { result ≡ line_says due (closed_line s.now) }
{
    match due? {
        Due::Tasks => tasks_said(session_header_numbers::header_number(b"tasks=", s)),
        Due::Version => {
            let call = call_line(s);
            version_said(session_header_numbers::header_number(b"version=", s), call)
        }
        Due::Call => call_line(s),
    }
}
