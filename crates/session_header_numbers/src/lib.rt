// The number of a header line, read by the line's key: each function gives what the definition of that part of the grammar gives
// (session/specs/Grammar, Header).
#![tactic(auto)]

ghost use Rattle.std.specs.Prelude.{◌≡◌};
ghost use Rattle.session.specs.Grammar.{parse_keyed_number, closed_line, parse_header_line, parse_fixed_line};
ghost use Rattle.session.specs.Header.{line_number};

use session::HeaderLine;

// A key and the number after it.
#[tactic(auto, using(session_keys::proofs::Laws::starts_stripped), unfolding(session::specs::Grammar::parse_keyed_number))]
pub fn keyed_number(s: &[u8], key: &[u8]) -> Option<u32>
    ensures { result ≡ parse_keyed_number key.now s.now }
{
    session_numbers::number(s.strip_prefix(key)?)
}

// The number of a closed header line with this key, given without the closing byte.
#[tactic(auto, unfolding(session::specs::Grammar::parse_header_line, session::specs::Grammar::admissible))]
pub fn header_number(key: &[u8], s: &[u8]) -> Option<u32>
    ensures { result ≡ parse_header_line key.now (closed_line s.now) }
{
    if s.len() <= 40 {
        keyed_number(s, key)
    } else {
        None
    }
}

// The number of a closed header line that is these bytes: 0, since it has none.
#[tactic(auto, unfolding(session::specs::Grammar::parse_fixed_line, session::specs::Grammar::admissible))]
pub fn fixed_line(word: &[u8], s: &[u8]) -> Option<u32>
    ensures { result ≡ parse_fixed_line word.now (closed_line s.now) }
{
    if s.len() <= 40 && session_keys::equals(s, word) {
        Some(0)
    } else {
        None
    }
}

// The number of a closed line that is of the form of this header line.
#[tactic(auto, unfolding(session::specs::Header::line_number))]
pub fn line_number(due: HeaderLine, s: &[u8]) -> Option<u32>
    ensures { result ≡ line_number due (closed_line s.now) }
{
    match due {
        HeaderLine::Tasks => header_number(b"tasks=", s),
        HeaderLine::Nodes => header_number(b"nodes=", s),
        HeaderLine::Buckets => header_number(b"buckets=", s),
        HeaderLine::Version => header_number(b"version=", s),
        HeaderLine::Blank => fixed_line(b"blank=no", s),
    }
}
