// What is written for a closed line: the header's lines once the opening is accepted, then each event's line and what the session
// prints for it.
ghost use Rattle.session.specs.Grammar.{closed_line};
ghost use Rattle.session.specs.Header.{header_step};
ghost use Rattle.session_state.specs.Handling.{LineHandled};
ghost use Rattle.std.specs.Prelude.{true};
ghost use Rattle.session_lines.specs.KnownMemory.{KnownIn};
ghost use Rattle.recorder_lines.specs.KeptLines.{kept_bytes};
ghost use Rattle.recorder.specs.LentRecorder.{after_bytes, recorded_event, first_recorded, recorded_header};

use recorder_lines::KeptLines;
use session::HeaderLine;
use session_bytes::Page;
use session_machine::Stage;
use session_state::{Handled, Phase, Session};

// An event's line, closed, and its output line. Where the line is outside the grammar the listing follows at once.
pub fn event_line(
    ok: bool,
    s: Session,
    ns: &mut [u32],
    bs: &mut [u32],
    line: &[u8],
    out: &mut [u8],
) -> Handled
    requires { KnownIn ok s ns.old bs.old }
    ensures { LineHandled (recorded_event (closed_line line.now) s ns.old bs.old) result ns.new
        bs.new out.old out.new }
{
    if recorder_lines::is_event(line) {
        let mut page = Page::new(out);
        recorder_lines::closed(&mut page, line);
        let n = page.printed();
        let t = session_lines::known_line(ok, s, ns, bs, line, &mut out[n..]);
        Handled {
            printed: n + t.printed,
            ..t
        }
    } else {
        session_lines::end_input(s, ns, bs, out)
    }
}

// After an opening that is accepted: the kept lines, and then the header's last line, if `own` says that it is the line, or what the
// line gives as an event's.
fn after_opening(
    s: Session,
    k: KeptLines,
    own: bool,
    ns: &mut [u32],
    bs: &mut [u32],
    line: &[u8],
    out: &mut [u8],
) -> Handled
    requires { KnownIn true s ns.old bs.old }
    ensures { LineHandled (after_bytes (kept_bytes k) (first_recorded own (closed_line line.now) s ns.old bs.old)) result
        ns.new bs.new out.old out.new }
{
    let m = recorder_lines::kept_length(k);
    let mut page = Page::new(out);
    page.bytes(&k.bytes[..m]);
    if own {
        recorder_lines::closed(&mut page, line);
        return Handled {
            session: s,
            printed: page.printed(),
        };
    }
    let n = page.printed();
    let t = event_line(true, s, ns, bs, line, &mut out[n..]);
    Handled {
        printed: n + t.printed,
        ..t
    }
}

// A closed line where a header line is due. A refused opening is written, and nothing after it.
pub fn header_line(
    s: Session,
    k: KeptLines,
    due: HeaderLine,
    ns: &mut [u32],
    bs: &mut [u32],
    line: &[u8],
    out: &mut [u8],
) -> Handled
    ensures { LineHandled (recorded_header (header_step due s.header (closed_line line.now)) k (closed_line line.now) s
        ns.old bs.old) result ns.new bs.new out.old out.new }
{
    let t = session_machine::header_line(due, s.header, s.state, ns, bs, line);
    let opened = Session {
        phase: Phase::Events,
        header: t.header,
        state: t.state,
    };
    match t.stage {
        Stage::NextDue(next) => session_state::after_line(Phase::Due(next), t.header, t.state, 0),
        Stage::OpenedBy => after_opening(opened, k, true, ns, bs, line, out),
        Stage::OpenedBefore => after_opening(opened, k, false, ns, bs, line, out),
        Stage::OpeningRefused(n) => session_state::stop(opened, n, out),
        Stage::Incomplete => session_state::stop(opened, 10, out),
    }
}
