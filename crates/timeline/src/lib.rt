// A session as rows: a column for each task shows where it stands when the event comes, and then stands what the session prints for the event
// (docs/FITTERS.md). `take_line` takes a line of the input, `finish` its end; specs/ has the rows.
#![tactic(auto)]

mod rows;

ghost use Rattle.std.specs.Prelude.{◌≡◌, length};
ghost use Rattle.session.specs.Grammar.{closed_line};
ghost use Rattle.timeline.specs.Lines.{new_timeline, timeline_line, timeline_end, TakenAs, EndedBy};

use session_bytes::Page;
use session_state::Session;

// A timeline between two lines: its session, and how many events it had.
#[derive(Clone, Copy)]
pub struct Timeline {
    pub session: Session,
    pub events: u32,
}

// The timeline after a line, and how many bytes were printed for it.
#[derive(Clone, Copy)]
pub struct Taken {
    pub timeline: Timeline,
    pub printed: usize,
}

// A timeline of which no line is read yet.
#[tactic(auto, unfolding(crate::specs::Lines::new_timeline))]
pub fn new_timeline() -> Timeline
    ensures { result ≡ new_timeline }
{
    Timeline {
        session: session_state::new_session(),
        events: 0,
    }
}

// More than enough for what a session prints for a line.
fn room() -> [u8; 128]
    ensures { 128 ≡ length result }
{
    [0; 128]
}

// One closed line, without its closing byte 10. What is printed for it is written from the buffer's first byte on.
pub fn take_line(t: Timeline, ns: &mut [u32], bs: &mut [u32], line: &[u8], out: &mut [u8]) -> Taken
    ensures { TakenAs (timeline_line t ns.old bs.old (closed_line line.now)) result ns.new bs.new
        out.old out.new }
{
    let mut printed = room();
    let d = session_lines::handle_line(t.session, ns, bs, line, &mut printed);
    let asked = session_parse::event_line(line);
    let mut page = Page::new(out);
    rows::front(&mut page, asked, t, d.session);
    page.bytes(&printed[..d.printed]);
    let events = rows::count_after(asked, t, d.session);
    rows::taken(d.session, events, page.printed())
}

// The end of an input, whose last line is closed or not. What is printed for it is written from the buffer's first byte on, and its length given.
pub fn finish(t: Timeline, closed: bool, ns: &mut [u32], bs: &mut [u32], out: &mut [u8]) -> usize
    ensures { EndedBy (timeline_end t closed ns.old bs.old) result ns.new bs.new out.old
        out.new }
{
    if closed {
        session_lines::end_input(t.session, ns, bs, out).printed
    } else {
        let long = [0u8; 41];
        session_lines::handle_line(t.session, ns, bs, &long, out).printed
    }
}
