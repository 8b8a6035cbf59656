// Reading a line of notes, over the reader of a session's lines.
ghost use Rattle.std.specs.Prelude.{◌≡◌, ◌≤◌, length};
ghost use Rattle.session.specs.Grammar.{closed_line};
ghost use Rattle.notes.specs.Text.{parse_answer, last_comma, noted, parse_noted, parse_note_line};

use notes::{Note, NoteLine};
use session::EventLine;
use spec::Answer;

// An answer's word.
#[tactic(auto, unfolding(notes::specs::Text::parse_answer))]
fn answer(s: &[u8]) -> Option<Answer>
    ensures { result ≡ parse_answer s.now }
{
    if session_keys::equals(s, b"yes") {
        Some(Answer::Yes)
    } else if session_keys::equals(s, b"no") {
        Some(Answer::No)
    } else if session_keys::equals(s, b"full") {
        Some(Answer::Full)
    } else if session_keys::equals(s, b"done") {
        Some(Answer::Done)
    } else if session_keys::equals(s, b"lost") {
        Some(Answer::Lost)
    } else if session_keys::equals(s, b"limit") {
        Some(Answer::Limit)
    } else {
        None
    }
}

// How many bytes stand before the last comma; all of them if there is none.
fn last_comma(s: &[u8]) -> usize
    ensures { (result ≡ last_comma s.now) × (result ≤ length s.now) }
{
    let mut last = s.len();
    for (i, x) in s.iter().enumerate() {
        if *x == b',' {
            last = i;
        }
    }
    last
}

// A start with an answer: a note, if the task's number is a lane's.
#[tactic(auto, unfolding(notes::specs::Text::noted))]
fn noted(e: Option<EventLine>, w: Option<Answer>) -> Option<NoteLine>
    ensures { result ≡ noted e w }
{
    let EventLine::Start(lane, call, tag) = e? else {
        return None;
    };
    let answer = w?;
    let x = Note { call, tag, answer };
    match lane {
        1 => Some(NoteLine::First(x)),
        2 => Some(NoteLine::Second(x)),
        _ => None,
    }
}

// What stands after `note=`: the form of a session's start, a comma and the answer.
fn after_key(s: &[u8]) -> Option<NoteLine>
    ensures { result ≡ parse_noted s.now }
{
    let p = last_comma(s);
    if s.len() <= p {
        return None;
    }
    noted(session_parse::start(&s[..p]), answer(&s[p + 1..]))
}

// A closed line, given without the closing byte.
pub fn line(s: &[u8]) -> Option<NoteLine>
    ensures { result ≡ parse_note_line (closed_line s.now) }
{
    if s.len() <= 40 && session_keys::starts_with(s, b"note=") {
        after_key(&s[5..])
    } else {
        None
    }
}
