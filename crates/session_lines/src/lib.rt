// A session, one line at a time: the session's state goes in by value and comes back, the pools and the buffer for what is
// printed are lent. `handle_line` takes a line, `known_line` one where it is known whether memory is sound, `end_input` the end of the input.
#![tactic(auto)]

mod events;

ghost use Rattle.session.specs.Grammar.{closed_line, parse_event_line};
ghost use Rattle.session.specs.Header.{header_step};
ghost use Rattle.session_state.specs.Handling.{header_effect, line_effect, end_effect, LineHandled};
ghost use Rattle.session_lines.specs.KnownMemory.{KnownIn};

use session::HeaderLine;
use session_machine::Stage;
use session_state::{Handled, Phase, Session};

// A closed line where a header line is due. A refused opening is printed, and nothing after it.
fn header_line(
    s: Session,
    due: HeaderLine,
    ns: &mut [u32],
    bs: &mut [u32],
    line: &[u8],
    out: &mut [u8],
) -> Handled
    ensures { LineHandled (header_effect (header_step due s.header (closed_line line.now))
        (parse_event_line (closed_line line.now)) s ns.old bs.old) result ns.new bs.new out.old
        out.new }
{
    let t = session_machine::header_line(due, s.header, s.state, ns, bs, line);
    let opened = Session {
        phase: Phase::Events,
        header: t.header,
        state: t.state,
    };
    match t.stage {
        Stage::NextDue(next) => Handled {
            session: Session {
                phase: Phase::Due(next),
                ..opened
            },
            printed: 0,
        },
        Stage::OpenedBy => Handled {
            session: opened,
            printed: 0,
        },
        Stage::OpenedBefore => events::event_line(true, opened, ns, bs, line, out),
        Stage::OpeningRefused(n) => session_state::stop(opened, n, out),
        Stage::Incomplete => session_state::stop(opened, 10, out),
    }
}

// Whether memory is sound: a scan of it where events are read.
pub fn sound_memory(s: Session, ns: &[u32], bs: &[u32]) -> bool
    ensures { KnownIn result s ns.now bs.now }
{
    if session_state::reads_events(s.phase) {
        session_machine::is_sound(s.state, s.header, ns, bs)
    } else {
        true
    }
}

// One closed line, without its closing byte 10. What it prints is written from the buffer's first byte on. `ok` is what `sound_memory` gives before
// the line, and it gives the same after it (`Line-known`).
pub fn known_line(
    ok: bool,
    s: Session,
    ns: &mut [u32],
    bs: &mut [u32],
    line: &[u8],
    out: &mut [u8],
) -> Handled
    requires { KnownIn ok s ns.old bs.old }
    ensures { LineHandled (line_effect s ns.old bs.old (closed_line line.now)) result ns.new bs.new
        out.old out.new }
{
    match s.phase {
        Phase::Due(due) => header_line(s, due, ns, bs, line, out),
        Phase::Events => events::event_line(ok, s, ns, bs, line, out),
        Phase::Stopped => Handled {
            session: s,
            printed: 0,
        },
    }
}

// One closed line, likewise, where nothing is known of memory: it is scanned.
pub fn handle_line(
    s: Session,
    ns: &mut [u32],
    bs: &mut [u32],
    line: &[u8],
    out: &mut [u8],
) -> Handled
    ensures { LineHandled (line_effect s ns.old bs.old (closed_line line.now)) result ns.new bs.new
        out.old out.new }
{
    let ok = sound_memory(s, ns, bs);
    known_line(ok, s, ns, bs, line, out)
}

// The end of an input whose lines are all closed. What it prints is written from the buffer's first byte on.
pub fn end_input(s: Session, ns: &mut [u32], bs: &mut [u32], out: &mut [u8]) -> Handled
    ensures { LineHandled (end_effect s ns.old bs.old) result ns.new bs.new out.old out.new }
{
    match s.phase {
        Phase::Due(due) if session_parse::optional(due) => {
            let o = session_machine::open(s.header, ns, bs);
            let opened = Session {
                phase: Phase::Events,
                header: s.header,
                state: o.state,
            };
            match o.refusal {
                None => events::listing(opened, ns, bs, out),
                Some(why) => session_state::stop(opened, why.number(), out),
            }
        }
        Phase::Due(_) => session_state::stop(s, 10, out),
        Phase::Events => events::listing(s, ns, bs, out),
        Phase::Stopped => Handled {
            session: s,
            printed: 0,
        },
    }
}
