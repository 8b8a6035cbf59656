// The text of `yardgame` (Text of game): a session whose last line is `game=N`, and the one line that is printed for it. Here: a closed line
// at a time, over the machine of a session; `ending` has what is printed at the end, `program` a whole input over standard input. Nothing is
// printed before the end.
#![tactic(auto)]

pub mod ending;
pub mod program;

ghost use Rattle.std.specs.Prelude.{◌≡◌};
ghost use Rattle.session.specs.Grammar.{closed_line};
ghost use Rattle.session.specs.Header.{header_step};
ghost use Rattle.game_text.specs.Reading.{standing, new_standing, place, refused_with, take_event, take_turn, header_taken, on_line, StandsAt};

use session::HeaderLine;
use session_machine::Stage;
use session_state::{Phase, Session};

// An input between two lines: its session, the number with which it is refused, or 0, and of how many turns the game is that is asked for. That no input
// is refused with 0 is a theorem on every standing (`end_refuses`): an Option would admit one.
#[derive(Clone, Copy)]
pub struct Standing {
    pub session: Session,
    pub refused: u32,
    pub asked: Option<u32>,
}

fn stands(session: Session, refused: u32, asked: Option<u32>) -> Standing
    ensures { result ≡ standing session refused asked }
{
    Standing {
        session,
        refused,
        asked,
    }
}

// No line is read yet.
#[tactic(auto, unfolding(crate::specs::Reading::new_standing))]
pub fn new_standing() -> Standing
    ensures { result ≡ new_standing }
{
    stands(session_state::new_session(), 0, None)
}

// A line outside the grammar, or one after the game's: 10.
#[tactic(auto, unfolding(crate::specs::Reading::refused_with))]
fn outside(t: Standing) -> Standing
    ensures { result ≡ refused_with 10 t }
{
    Standing { refused: 10, ..t }
}

// A line that is no game's: the session handles it, and what it would print is dropped.
fn event_line(t: Standing, ns: &mut [u32], bs: &mut [u32], line: &[u8]) -> Standing
    ensures { StandsAt (take_event (place t ns.old bs.old) (closed_line line.now)) result ns.new
        bs.new }
{
    let mut dropped = [0u8; 1];
    let d = session_lines::handle_line(t.session, ns, bs, line, &mut dropped);
    if session_state::reads_events(d.session.phase) {
        stands(d.session, 0, None)
    } else {
        stands(d.session, 10, None)
    }
}

// A line after the header. Nothing stands after a game's line.
fn turn_line(t: Standing, ns: &mut [u32], bs: &mut [u32], line: &[u8]) -> Standing
    ensures { StandsAt (take_turn (place t ns.old bs.old) (closed_line line.now)) result ns.new
        bs.new }
{
    match t.asked {
        None => match session_header_numbers::header_number(b"game=", line) {
            Some(n) => stands(t.session, 0, Some(n)),
            None => event_line(t, ns, bs, line),
        },
        Some(_) => outside(t),
    }
}

// A line where a header line is due.
fn header_line(
    t: Standing,
    due: HeaderLine,
    ns: &mut [u32],
    bs: &mut [u32],
    line: &[u8],
) -> Standing
    ensures { StandsAt (header_taken (header_step due t.session.header (closed_line line.now))
        (place t ns.old bs.old)
        (closed_line line.now)) result ns.new bs.new }
{
    let s = t.session;
    let d = session_machine::header_line(due, s.header, s.state, ns, bs, line);
    let opened = Session {
        phase: Phase::Events,
        header: d.header,
        state: d.state,
    };
    match d.stage {
        Stage::NextDue(next) => {
            let phase = Phase::Due(next);
            stands(Session { phase, ..opened }, 0, None)
        }
        Stage::OpenedBy => stands(opened, 0, None),
        Stage::OpenedBefore => turn_line(stands(opened, 0, None), ns, bs, line),
        Stage::OpeningRefused(n) => stands(opened, n, None),
        Stage::Incomplete => outside(t),
    }
}

// One closed line, without its closing byte 10.
pub fn take_line(t: Standing, ns: &mut [u32], bs: &mut [u32], line: &[u8]) -> Standing
    ensures { StandsAt (on_line (place t ns.old bs.old) (closed_line line.now)) result ns.new bs.new }
{
    if t.refused != 0 {
        return t;
    }
    match t.session.phase {
        Phase::Due(due) => header_line(t, due, ns, bs, line),
        Phase::Events => turn_line(t, ns, bs, line),
        Phase::Stopped => outside(t),
    }
}
