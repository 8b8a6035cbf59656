// Keys and words compared with fixed byte strings, and the call that stands after `start=task,`: each function gives what the
// definition of that part of the grammar gives (session/specs/Grammar).
#![tactic(auto)]

ghost use Rattle.std.specs.Prelude.{◌≡◌};
ghost use Rattle.session.specs.Grammar.{starts_with, equals, tagged_start, parse_call};

use session::EventLine;
use spec::Call;

// Whether s starts with the bytes of key.
#[tactic(auto, using(crate::proofs::Laws::starts_library))]
pub fn starts_with(s: &[u8], key: &[u8]) -> bool
    ensures { result ≡ starts_with key.now s.now }
{
    s.starts_with(key)
}

// Whether s is the bytes of word.
#[tactic(auto, using(crate::proofs::Laws::equals_library))]
pub fn equals(s: &[u8], word: &[u8]) -> bool
    ensures { result ≡ equals word.now s.now }
{
    s == word
}

// The start of a call that has a tag.
#[tactic(auto, unfolding(session::specs::Grammar::tagged_start))]
pub fn tagged_start(k: u32, call: Call, tag: Option<u32>) -> Option<EventLine>
    ensures { result ≡ tagged_start k call tag }
{
    Some(EventLine::Start(k, call, tag?))
}

// What stands after `start=task,`.
#[tactic(auto, using(crate::proofs::Laws::call_keys), unfolding(session::specs::Grammar::parse_call))]
pub fn call(k: u32, s: &[u8]) -> Option<EventLine>
    ensures { result ≡ parse_call k s.now }
{
    if equals(s, b"grow") {
        Some(EventLine::Start(k, Call::Grow, 0))
    } else if equals(s, b"shrink") {
        Some(EventLine::Start(k, Call::Shrink, 0))
    } else if let Some(tag) = s.strip_prefix(b"insert,") {
        tagged_start(k, Call::Insert, session_numbers::number(tag))
    } else if let Some(tag) = s.strip_prefix(b"remove,") {
        tagged_start(k, Call::Remove, session_numbers::number(tag))
    } else if let Some(tag) = s.strip_prefix(b"contains,") {
        tagged_start(k, Call::Contains, session_numbers::number(tag))
    } else {
        None
    }
}
