// What a recorder asks of single lines: the header's lines, kept until the opening is accepted, a line that is written again, and whether
// a line is an event's.
#![tactic(auto)]

ghost use Rattle.std.specs.Prelude.{◌≡◌, ◌≤◌, take};
ghost use Rattle.session_bytes.specs.Pages.{Appends};
ghost use Rattle.session.specs.Grammar.{closed_line, parse_event_line};
ghost use Rattle.session.specs.Transcript.{is_event};
ghost use Rattle.recording.specs.Recording.{close};
ghost use Rattle.recording.specs.Recorder.{longest_header};
ghost use Rattle.recorder_lines.specs.KeptLines.{no_lines, kept_bytes, keep_line, kept_after};

use session::EventLine;
use session_bytes::Page;
use session_state::Phase;

// Four lines of at most 40 bytes, each with the byte 10 that closes it, and how many bytes they are.
#[derive(Clone, Copy)]
pub struct KeptLines {
    pub bytes: [u8; 164],
    pub len: usize,
}

// No line is kept yet.
#[tactic(auto, unfolding(crate::specs::KeptLines::no_lines))]
pub fn no_lines() -> KeptLines
    ensures { result ≡ no_lines }
{
    KeptLines {
        bytes: [0; 164],
        len: 0,
    }
}

// A line, and the byte 10 that closes it.
#[tactic(auto, using(session_bytes::proofs::Laws::parts))]
pub fn closed(page: &mut Page<'_>, line: &[u8])
    ensures { Appends (close line.now) page.old page.new }
{
    page.bytes(line);
    page.byte(b'\n');
}

// One line more, closed; what finds no room is left out.
#[tactic(auto, unfolding(crate::specs::KeptLines::keep_line))]
pub fn keep(k: KeptLines, line: &[u8]) -> KeptLines
    ensures { result ≡ keep_line k line.now }
{
    let mut bytes = k.bytes;
    let mut page = Page::from_place(&mut bytes, k.len);
    closed(&mut page, line);
    let len = page.printed();
    KeptLines { bytes, len }
}

// How many of the bytes are kept lines.
pub fn kept_length(k: KeptLines) -> usize
    ensures { (result ≤ longest_header) × (take result k.bytes ≡ kept_bytes k) }
{
    k.len.min(k.bytes.len())
}

// The lines kept after a closed line: where a header line is due, that line too.
#[tactic(auto, unfolding(crate::specs::KeptLines::kept_after))]
pub fn kept_after(phase: Phase, k: KeptLines, line: &[u8]) -> KeptLines
    ensures { result ≡ kept_after phase k line.now }
{
    match phase {
        Phase::Due(_) => keep(k, line),
        Phase::Events | Phase::Stopped => k,
    }
}

// Whether a closed line is an event's.
#[tactic(auto, unfolding(session::specs::Transcript::is_event))]
pub fn is_event(line: &[u8]) -> bool
    ensures { result ≡ is_event (parse_event_line (closed_line line.now)) }
{
    session_parse::event_line(line).is_some()
}
