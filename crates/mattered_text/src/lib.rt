// The text of `yardmattered` (Text of mattered): a session, and the one line that is printed for it. Here: a closed line at a time, the words of the
// first 256 events kept in a lent slice; `ending` has what is said at the end, `program` a whole input over standard input. Nothing is said before the
// end, and the machine is opened there.
#![tactic(auto)]

mod ending;
pub mod program;

ghost use Rattle.std.specs.Prelude.{◌≡◌};
ghost use Rattle.session.specs.Grammar.{closed_line};
ghost use Rattle.session.specs.Transcript.{is_event};
ghost use Rattle.mattered_text.specs.Reading.{event_words, stored, after_line, place, on_line, StandsAt};

use mattered_standing::Standing;
use session::EventLine;
use session_state::Phase;

// The words that keep an event: a kind, a task, a tag, and one that is not read. A line outside the grammar has zeros.
#[tactic(auto, unfolding(crate::specs::Reading::event_words))]
fn event_words(x: Option<EventLine>) -> [u32; 4]
    ensures { result ≡ event_words x }
{
    match x {
        Some(EventLine::Start(k, call, tag)) => [call.number(), k, tag, 0],
        Some(EventLine::Step(k)) => [0, k, 0, 0],
        None => [0, 0, 0, 0],
    }
}

#[tactic(auto, unfolding(session::specs::Transcript::is_event))]
fn is_event(x: Option<EventLine>) -> bool
    ensures { result ≡ is_event x }
{
    !matches!(x, None)
}

// Writes the words of event n, from 0. Past 256 events they are not kept.
#[tactic(auto, unfolding(crate::specs::Reading::stored))]
fn store(events: &mut [u32], n: usize, w: [u32; 4])
    ensures { events.new ≡ stored events.old n w }
{
    if n < 256 && 4 * n + 4 <= events.len() {
        schedule_words::write_words(events, n, w);
    }
}

// After a closed line, given without its closing byte 10, and whether it is of the form of an event's.
#[tactic(auto, unfolding(crate::specs::Reading::after_line))]
fn after_line(t: Standing, event: bool, line: &[u8]) -> Standing
    ensures { result ≡ after_line t.phase t event (closed_line line.now) }
{
    match t.phase {
        Phase::Due(due) => mattered_standing::after_header(
            session_parse::header_line(due, t.header, line),
            t.header,
            event,
        ),
        Phase::Events => mattered_standing::after_event(t, event),
        Phase::Stopped => t,
    }
}

// One closed line, without its closing byte 10. The words of the next event are written whatever the line is: they are read only if it is counted.
#[tactic(auto, unfolding(crate::specs::Reading::on_line))]
pub fn take_line(t: Standing, events: &mut [u32], line: &[u8]) -> Standing
    ensures { StandsAt (on_line (place t events.old) (closed_line line.now)) result events.new }
{
    let x = session_parse::event_line(line);
    store(events, t.count, event_words(x));
    after_line(t, is_event(x), line)
}
